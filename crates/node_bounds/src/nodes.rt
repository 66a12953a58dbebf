//! What is said of a node: its box is closed by a certificate, or a whole point is a least one of it, or it is split.
ghost use Rattle.std.specs.Prelude.{◌≡◌, ◌+◌, ◌*◌, ◌≤◌, ◌<ℤ◌, ℕ, length, IfNone, IfOk, IfSome};
ghost use Rattle.ip_defs.specs.Boxes.{IsOpen};
ghost use Rattle.ip_defs.specs.Limits.{IsArea};
ghost use Rattle.std.specs.Prelude.{List, ℤ, ◌≤ℤ◌};
ghost use Rattle.ip_defs.specs.Program.{high_at, low_at, IsFeasible, IsIn, cost as cost_of};
ghost use Rattle.leaf_cert.specs.Scratches.{FitsScratch, column_count_of};
ghost use Rattle.ip_defs.specs.declared.certificates.Bound.TheVariants.{At};
ghost use Rattle.node_bounds.specs.Cuts.{Closes, IsBelow};
ghost use Rattle.node_bounds.specs.Nodes.{HasCert, IsNodeOf, IsSplit, KeepsReason, greater as greater_of, stops_of};
ghost use Rattle.node_bounds.specs.Splits.{IsWidest};
ghost use Rattle.node_bounds.specs.Stops.{stops};
ghost use Rattle.node_bounds.specs.Tasks.{IsNodeFor, IsTask, RisesBy};
ghost use Rattle.node_bounds.specs.Workspaces.{FitsWorkspace};

use crate::Why;
use crate::boxes::{middle, widest_column};
use crate::leaves::{end_at_point, is_closed, plain_cert};
use crate::proposals::{Proposer, accepted, proposal};
use crate::relaxations::{Relaxed, relax};
use crate::tasks::Task;
use crate::workspaces::Workspace;
use ip_defs::{Area, Bound, Cert, Memory, Point};
use ip_model::IntModel;
use leaf_cert::{Scratch, leaf_bound};
use simplex_exact::Steps;
use std::alloc::Global;
use std::sync::ledger::Ledger;

/// A split of a box. Both halves have a point.
#[derive(Debug, Drop)]
pub struct Branch {
    /// The column.
    pub col: u32,
    /// The greatest number of the column in the left half.
    pub at: i64,
    /// Why the box is split.
    pub why: Why,
    /// No feasible point of the box costs less: the sum of the box, or for `Fractional` the bound of the certificate, where it is greater.
    pub bound: i128,
}

/// What is said of a node.
#[derive(Debug, Drop)]
pub enum Node {
    /// A certificate closes its box: nothing there is below the cost at which the search cuts.
    Closed(Cert),
    /// A feasible point is below that cost, and no feasible point of the box costs less, as the certificate shows.
    Whole {
        point: Point,
        cost: i128,
        cert: Cert,
    },
    /// Its box is split, whose bound is below that cost.
    Split(Branch),
}

/// The greater of two bounds.
fn greater(first: Bound, second: Bound) -> Bound
    ensures { result ≡ greater_of first second }
{
    match (first, second) {
        (Bound::At(a), Bound::At(b)) => Bound::At(a.max(b)),
        (_, _) => Bound::Infinite,
    }
}

/// A bound that is below the cost at which a search cuts, none where it is not.
fn below(cut_at: Option<i128>, bound: Bound) -> Option<i128>
    ensures some { IfSome result (λ v. (bound ≡ At v) × IsBelow (At v) cut_at) }
    ensures none { IfNone result (Closes cut_at bound) }
{
    match (cut_at, bound) {
        (_, Bound::Infinite) => None,
        (None, Bound::At(bound)) => Some(bound),
        (Some(cost), Bound::At(bound)) => { if cost <= bound { None } else { Some(bound) } }
    }
}

/// What is said of a box that has to be split at a column for a reason: its sum closes it, or the certificate of the reason does, or it is
/// split, with its bound.
pub fn split_or_close(
    alloc: Global,
    task: &Task,
    col: u32,
    at: i64,
    why: Why,
    scratch: &mut Scratch,
) -> Node
    requires area { IsArea (length task.now.model.now.columns) task.now.area.now }
    requires cert { HasCert (length task.now.model.now.rows) why }
    requires room { FitsScratch task.now.model.now scratch.old }
    ensures node { (pivots : ℕ) → IsSplit task.now.model.now pivots task.now.area.now col at why
        → IsNodeOf task.now.model.now pivots task.now.area.now task.now.cut_at result }
    ensures stops { stops_of result ≤ stops why }
    ensures same { KeepsReason why result }
    ensures room { column_count_of scratch.new ≡ column_count_of scratch.old }
{
    let plain = plain_cert(alloc);
    let sum = match below(
        task.cut_at,
        leaf_bound(task.model, &plain, task.area, scratch),
    ) {
        Some(sum) => sum,
        None => return Node::Closed(plain),
    };
    match why {
        Why::Fractional { point, cert } => {
            let bound = greater(
                Bound::At(sum),
                leaf_bound(task.model, &cert, task.area, scratch),
            );
            match below(task.cut_at, bound) {
                Some(bound) => {
                    let why = Why::Fractional { point, cert };
                    Node::Split(Branch {
                        col,
                        at,
                        why,
                        bound,
                    })
                }
                None => Node::Closed(cert),
            }
        }
        Why::Stopped => Node::Split(Branch {
            col,
            at,
            why: Why::Stopped,
            bound: sum,
        }),
        Why::Wide => Node::Split(Branch {
            col,
            at,
            why: Why::Wide,
            bound: sum,
        }),
    }
}

/// What is said of a box of more than one point that its sum does not close: its linear program closes it, or has a whole point, or it is
/// split, by the linear program at a column with a fraction, or without its answer at the middle of the widest column.
fn relax_or_split<P: Proposer, L: Ledger>(
    alloc: Global,
    task: &Task,
    widest: u32,
    proposer: &mut P,
    work: &mut Workspace,
    steps: &mut Steps<L>,
) -> Result<Node, Memory>
    requires task { IsTask task.now }
    requires open { IsOpen task.now.area.now }
    requires room { FitsWorkspace task.now.model.now work.old }
    requires widest { IsWidest task.now.area.now widest }
    requires wide { low_at task.now.area.now widest <ℤ high_at task.now.area.now widest }
    ensures node { IfOk result (IsNodeFor task.now) }
    ensures least { IfOk result (λ n. steps.old + stops_of n * task.now.pivots ≤ steps.new) }
    ensures counted { RisesBy task.now.pivots steps.old steps.new }
    ensures room { FitsWorkspace task.now.model.now work.new }
{
    // The parts of a model are within the limits.
    let _parts = task.model.parts();
    let proposed = proposal(alloc, task, proposer)?;
    let known = accepted(alloc, task, proposed, work)?;
    match relax(alloc, task, known, work, steps)? {
        Relaxed::Closed(cert) => Ok(Node::Closed(cert)),
        Relaxed::Whole { point, cost, cert } => Ok(Node::Whole { point, cost, cert }),
        Relaxed::Between { col, at, why } => {
            let scratch = &mut work.scratch;
            Ok(split_or_close(alloc, task, col, at, why, scratch))
        }
        Relaxed::Unanswered(why) => {
            let (low, high) = task.area.as_slice()[widest as usize];
            let at = middle(low, high);
            let scratch = &mut work.scratch;
            Ok(split_or_close(alloc, task, widest, at, why, scratch))
        }
    }
}

/// What is said of a node: its sum closes its box, or its one point ends it, or its linear program closes it or has a whole point, or it is
/// split. What is proposed is believed only where a check accepts it, so the answer is right whatever the proposer.
pub fn visit<P: Proposer, L: Ledger>(
    alloc: Global,
    task: &Task,
    proposer: &mut P,
    work: &mut Workspace,
    steps: &mut Steps<L>,
) -> Result<Node, Memory>
    requires task { IsTask task.now }
    requires room { FitsWorkspace task.now.model.now work.old }
    ensures node { IfOk result (IsNodeFor task.now) }
    ensures least { IfOk result (λ n. steps.old + stops_of n * task.now.pivots ≤ steps.new) }
    ensures counted { RisesBy task.now.pivots steps.old steps.new }
    ensures room { FitsWorkspace task.now.model.now work.new }
{
    let plain = plain_cert(alloc);
    let bound = leaf_bound(task.model, &plain, task.area, &mut work.scratch);
    if is_closed(task.cut_at, bound) {
        return Ok(Node::Closed(plain));
    }
    // The parts of a model are within the limits.
    let _parts = task.model.parts();
    match widest_column(task.area.as_slice()) {
        Some(widest) => relax_or_split(alloc, task, widest, proposer, work, steps),
        None => end_at_point(alloc, task, plain, &mut work.scratch),
    }
}

/// A number that no feasible point of a box costs less than: the sum of the box.
pub fn box_bound(alloc: Global, model: &IntModel, area: &Area, work: &mut Workspace) -> i128
    requires area { IsArea (length model.now.columns) area.now }
    requires room { FitsWorkspace model.now work.old }
    ensures bound { (x : List ℤ) → IsFeasible model.now x → IsIn area.now x → result ≤ℤ cost_of model.now x }
    ensures room { FitsWorkspace model.now work.new }
{
    match leaf_bound(model, &plain_cert(alloc), area, &mut work.scratch) {
        Bound::At(bound) => bound,
        Bound::Infinite => 0,
    }
}
