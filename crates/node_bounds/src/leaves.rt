//! Boxes that a certificate closes, and boxes of one point.
ghost use Rattle.std.specs.Prelude.{◌≡◌, IfOk, IfNone, IfSome, MatchBool, ℕ, length};
ghost use Rattle.ip_defs.specs.Boxes.{IsOpen};
ghost use Rattle.ip_defs.specs.Certificates.{box_sum, leaf_bound as leaf_bound_of};
ghost use Rattle.ip_defs.specs.Limits.{IsArea, IsCert, IsWithinLimits};
ghost use Rattle.ip_defs.specs.Program.{box_of, IsFeasible, IsIn};
ghost use Rattle.leaf_cert.specs.Scratches.{FitsScratch, column_count_of};
ghost use Rattle.node_bounds.specs.Areas.{IsSearchArea, IsSingle, lowest};
ghost use Rattle.node_bounds.specs.Certificates.{plain_cert as plain_cert_of};
ghost use Rattle.node_bounds.specs.Cuts.{Closes, IsBelow};
ghost use Rattle.node_bounds.specs.Nodes.{IsNodeOf, stops_of};
ghost use Rattle.node_bounds.specs.Internal.Leaves.{BreaksRow, ray_on};

use crate::boxes::lowest_point;
use crate::nodes::Node;
use crate::tasks::Task;
use ip_defs::{Area, Bound, Breach, Cert, Memory, Multipliers, Point};
use ip_model::{IntModel, cost, first_breach};
use leaf_cert::{Scratch, leaf_bound};
use std::alloc::{AllocError, Global};

/// The certificate without multipliers, whose bound is the sum of a box.
pub fn plain_cert(alloc: Global) -> Cert
    ensures { result ≡ plain_cert_of }
{
    Cert {
        q: 1,
        y: Multipliers::from_vec(Vec::new(alloc)),
    }
}

/// Whether a box with a bound has nothing below the cost at which a search cuts.
pub fn is_closed(cut_at: Option<i128>, bound: Bound) -> bool
    ensures { MatchBool result (Closes cut_at bound) (IsBelow bound cut_at) }
{
    match (cut_at, bound) {
        (_, Bound::Infinite) => true,
        (None, Bound::At(_)) => false,
        (Some(cost), Bound::At(bound)) => cost <= bound,
    }
}

/// The ray of one row.
fn ray(alloc: Global, row: u32, multiplier: i64) -> Result<Cert, AllocError>
    ensures { IfOk result (λ c. c ≡ ray_on row multiplier) }
{
    Ok(Cert {
        q: 0,
        y: Multipliers::from_vec(vec![in alloc; (row, multiplier)]?),
    })
}

/// The first row that a point breaks, which lies in the box of the model.
fn broken_row(model: &IntModel, point: &Point) -> Option<u32>
    requires { IsIn (box_of model.now) point.now }
    ensures none { IfNone result (IsFeasible model.now point.now) }
    ensures some { IfSome result (BreaksRow model.now point.now) }
{
    match first_breach(model, point) {
        Some(Breach::Row(row)) => Some(row),
        Some(Breach::Column(_)) => unreachable!(),
        None => None,
    }
}

/// The ray that closes a box whose one point breaks a row: 1 on the row where its low side is broken, else -1.
fn ray_of(
    alloc: Global,
    model: &IntModel,
    area: &Area,
    row: u32,
    scratch: &mut Scratch,
) -> Result<Cert, Memory>
    requires limits { IsWithinLimits model.now }
    requires area { IsArea (length model.now.columns) area.now }
    requires open { IsOpen area.now }
    requires single { IsSingle area.now }
    requires broken { BreaksRow model.now (lowest area.now) row }
    requires room { FitsScratch model.now scratch.old }
    ensures ray { IfOk result (IsCert (length model.now.rows)) }
    ensures infinite { IfOk result (λ c. leaf_bound_of model.now area.now c ≡ Bound.Infinite) }
    ensures room { column_count_of scratch.new ≡ column_count_of scratch.old }
{
    let mut ray = ray(alloc, row, 1)?;
    match leaf_bound(model, &ray, area, scratch) {
        Bound::Infinite => Ok(ray),
        Bound::At(_) => {
            ray.y.set(0, (row, -1));
            Ok(ray)
        }
    }
}

/// Closes a box of one point, whose sum is below the cost at which a search cuts: the point is a least one where it is feasible, else a
/// ray closes the box.
pub fn end_at_point(
    alloc: Global,
    task: &Task,
    plain: Cert,
    scratch: &mut Scratch,
) -> Result<Node, Memory>
    requires plain { plain ≡ plain_cert_of }
    requires single { IsSingle task.now.area.now }
    requires limits { IsWithinLimits task.now.model.now }
    requires area { IsSearchArea task.now.model.now task.now.area.now }
    requires open { IsOpen task.now.area.now }
    requires below { IsBelow (Bound.At (box_sum task.now.model.now task.now.area.now)) task.now.cut_at }
    requires room { FitsScratch task.now.model.now scratch.old }
    ensures node { IfOk result (λ n. (pivots : ℕ) → IsNodeOf task.now.model.now pivots task.now.area.now task.now.cut_at n) }
    ensures answered { IfOk result (λ n. stops_of n ≡ 0) }
    ensures room { column_count_of scratch.new ≡ column_count_of scratch.old }
{
    let point = lowest_point(alloc, task.area)?;
    match broken_row(task.model, &point) {
        Some(row) => {
            let ray = ray_of(alloc, task.model, task.area, row, scratch)?;
            Ok(Node::Closed(ray))
        }
        None => {
            let cost = cost(task.model, &point);
            Ok(Node::Whole {
                point,
                cost,
                cert: plain,
            })
        }
    }
}
