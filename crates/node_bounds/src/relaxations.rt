//! What the linear program of a node says of its box.
ghost use Rattle.std.specs.Prelude.{◌≡◌, ◌<◌, ◌+◌, ◌*◌, ◌≤◌, ℕ, ◌+ℤ◌, IfOk, IfNone, IfSome, MatchBool, length, pos};
ghost use Rattle.frac128.specs.Rationals.{of, AtMost};
ghost use Rattle.frac128.specs.Values.{value_of};
ghost use Rattle.ip_defs.specs.Boxes.{IsOpen};
ghost use Rattle.ip_defs.specs.Limits.{IsWithinLimits};
ghost use Rattle.ip_defs.specs.Program.{at as number_at};
ghost use Rattle.lp_duality.specs.Relaxations.{numbers_of};
ghost use Rattle.node_bounds.specs.Areas.{IsSearchArea};
ghost use Rattle.node_bounds.specs.Tasks.{IsTask, RisesBy};
ghost use Rattle.node_bounds.specs.Workspaces.{FitsWorkspace};
ghost use Rattle.node_bounds.specs.Internal.Relaxed.{IsBounded, IsRelaxedFor, IsRelaxedNode, IsSmallNumber, IsWholeNumber, stops_by};

use crate::Why;
use crate::choosers::Chooser;
use crate::leaves::is_closed;
use crate::tasks::Task;
use crate::workspaces::Workspace;
use dual_rays::{cert_of_prices, cert_of_ray};
use frac128::Frac;
use ip_defs::{Cert, Memory, Parts, Point};
use ip_model::cost;
use leaf_cert::leaf_bound;
use simplex_exact::{Fracs, LpAnswer, Steps, solve_lp};
use std::alloc::{AllocError, Global};
use std::sync::ledger::Ledger;

/// What the linear program of a node says.
#[derive(Debug, Drop)]
pub enum Relaxed {
    /// The node is a leaf.
    Closed(Cert),
    /// A feasible point costs no more than any other of the box, as the certificate shows.
    Whole {
        point: Point,
        cost: i128,
        cert: Cert,
    },
    /// The point of the relaxation has a fraction at a column, with this floor.
    Between {
        col: u32,
        at: i64,
        why: Why,
    },
    /// There is no answer, for this reason.
    Unanswered(Why),
}

/// How far a number is from the middle of two whole numbers, in 2^32ths of 1, about: a rule of thumb, of which nothing is promised.
fn middle_distance(number: Frac) -> u64 {
    let den = number.den().unsigned_abs();
    let rest = number.num().rem_euclid(number.den()).unsigned_abs();
    let shift = 96_u32.saturating_sub(den.leading_zeros());
    let whole = u64::try_from(den >> shift).unwrap_or(1).max(1);
    let part = u64::try_from(rest >> shift).unwrap_or(0);
    (part.wrapping_mul(1 << 32) / whole).abs_diff(1 << 31)
}

/// Whether a number is whole.
fn is_whole(number: Frac) -> bool
    ensures { MatchBool result (IsWholeNumber (value_of number)) (IsWholeNumber (value_of number) → ⊥) }
{
    number.den() == 1
}

/// The greatest whole number below a number that is small and not whole.
fn floor_of(number: Frac) -> i64
    requires broken { IsWholeNumber (value_of number) → ⊥ }
    requires small { IsSmallNumber (value_of number) }
    ensures least { AtMost (of result) (value_of number) }
    ensures most { AtMost (value_of number) (of (result +ℤ pos 1)) }
{
    let floor = number.floor();
    floor as i64
}

/// A small whole number.
fn whole_number(number: Frac) -> i64
    requires whole { IsWholeNumber (value_of number) }
    requires small { IsSmallNumber (value_of number) }
    ensures { value_of number ≡ of result }
{
    number.num() as i64
}

/// The column of a point with the number nearest to the middle of two whole ones, the first of those that are as near.
fn fractional_column(point: &[Frac]) -> Option<u32>
    requires { length point.now ≤ 4096 }
    ensures some { IfSome result (λ j. (j < length point.now) × (IsWholeNumber (numbers_of point.now j) → ⊥)) }
    ensures none { IfNone result ((j : ℕ) → j < length point.now → IsWholeNumber (numbers_of point.now j)) }
{
    let mut nearest = None;
    let mut least = u64::MAX;
    for (j, number) in point.iter().enumerate() {
        if !is_whole(*number) {
            let distance = middle_distance(*number);
            if nearest.is_none() || distance < least {
                nearest = Some(j as u32);
                least = distance;
            }
        }
    }
    nearest
}

/// A column with a fraction, if any: the one that looks best; else the one nearest to the middle.
fn chosen_column(parts: &Parts, point: &[Frac], chooser: &mut Chooser) -> Option<u32>
    requires { length point.now ≤ 4096 }
    ensures some { IfSome result (λ j. (j < length point.now) × (IsWholeNumber (numbers_of point.now j) → ⊥)) }
    ensures none { IfNone result ((j : ℕ) → j < length point.now → IsWholeNumber (numbers_of point.now j)) }
{
    let best = chooser.choose(parts, point);
    match point.get(best) {
        Some(number) => {
            if is_whole(*number) {
                fractional_column(point)
            } else {
                Some(best as u32)
            }
        }
        None => fractional_column(point),
    }
}

/// The whole numbers of a point.
fn whole_point(alloc: Global, point: &[Frac]) -> Result<Point, AllocError>
    requires whole { (j : ℕ) → j < length point.now → IsWholeNumber (numbers_of point.now j) }
    requires small { (j : ℕ) → j < length point.now → IsSmallNumber (numbers_of point.now j) }
    ensures size { IfOk result (λ x. length x ≡ length point.now) }
    ensures same { IfOk result (λ x. (j : ℕ) → j < length point.now → numbers_of point.now j ≡ of (number_at x j)) }
{
    let mut numbers = Vec::with_capacity(alloc, point.len())?;
    for number in point {
        numbers.push(whole_number(*number))?;
    }
    Ok(Point::from_vec(numbers))
}

/// Closes a node, or splits it at a column with a fraction, by a point of its relaxation that costs least there and a certificate that
/// bounds by just that cost.
pub fn bounded(
    alloc: Global,
    task: &Task,
    point: Fracs,
    cert: Cert,
    work: &mut Workspace,
) -> Result<Relaxed, Memory>
    requires limits { IsWithinLimits task.now.model.now }
    requires area { IsSearchArea task.now.model.now task.now.area.now }
    requires open { IsOpen task.now.area.now }
    requires bounds { IsBounded task.now.model.now task.now.area.now point cert }
    requires room { FitsWorkspace task.now.model.now work.old }
    ensures relaxed { IfOk result (λ r. (pivots : ℕ) → IsRelaxedNode task.now.model.now pivots task.now.area.now task.now.cut_at r) }
    ensures answered { IfOk result (λ r. stops_by r ≡ 0) }
    ensures room { FitsWorkspace task.now.model.now work.new }
{
    let bound = leaf_bound(task.model, &cert, task.area, &mut work.scratch);
    if is_closed(task.cut_at, bound) {
        return Ok(Relaxed::Closed(cert));
    }
    match chosen_column(task.model.parts(), point.as_slice(), &mut work.chooser) {
        Some(col) => {
            let at = floor_of(point.as_slice()[col as usize]);
            let why = Why::Fractional { point, cert };
            Ok(Relaxed::Between { col, at, why })
        }
        None => {
            let point = whole_point(alloc, point.as_slice())?;
            let cost = cost(task.model, &point);
            Ok(Relaxed::Whole { point, cost, cert })
        }
    }
}

/// What the linear program of a node says: a certificate that closes the node, or a column between whose whole numbers a least point lies,
/// or that there is no answer. Where a proposal was accepted it is the answer; else the defined simplex decides, whose steps alone are
/// counted.
pub fn relax<L: Ledger>(
    alloc: Global,
    task: &Task,
    accepted: Option<Relaxed>,
    work: &mut Workspace,
    steps: &mut Steps<L>,
) -> Result<Relaxed, Memory>
    requires task { IsTask task.now }
    requires open { IsOpen task.now.area.now }
    requires right { IfSome accepted (IsRelaxedFor task.now) }
    requires answered { IfSome accepted (λ r. stops_by r ≡ 0) }
    requires room { FitsWorkspace task.now.model.now work.old }
    ensures relaxed { IfOk result (IsRelaxedFor task.now) }
    ensures least { IfOk result (λ r. steps.old + stops_by r * task.now.pivots ≤ steps.new) }
    ensures counted { RisesBy task.now.pivots steps.old steps.new }
    ensures room { FitsWorkspace task.now.model.now work.new }
{
    if let Some(relaxed) = accepted {
        return Ok(relaxed);
    }
    // The parts of a model are within the limits, and so are its rows' prices.
    let _parts = task.model.parts();
    match solve_lp(alloc, task.model, task.area, task.pivots, steps)? {
        LpAnswer::Best { point, prices } => match cert_of_prices(alloc, &prices)? {
            Some(cert) => bounded(alloc, task, point, cert, work),
            None => Ok(Relaxed::Unanswered(Why::Wide)),
        },
        LpAnswer::Empty { ray } => match cert_of_ray(alloc, &ray)? {
            Some(cert) => Ok(Relaxed::Closed(cert)),
            None => Ok(Relaxed::Unanswered(Why::Wide)),
        },
        LpAnswer::Stopped => Ok(Relaxed::Unanswered(Why::Stopped)),
        LpAnswer::Wide => Ok(Relaxed::Unanswered(Why::Wide)),
    }
}
