//! One round of a search: what is done with the node that was taken.
ghost use Rattle.std.specs.Prelude.{◌≡◌, ◌+◌, ◌<◌, ◌≤◌, ◌⊎◌, IfNone, IfOk, IfSome, MatchBool, length, false, Some};
ghost use Rattle.node_bounds.specs.Stops.{stops};
ghost use Rattle.node_bounds.specs.declared.reasons.Why.TheVariants as Reason;
ghost use Rattle.open_nodes.specs.declared.nodes.State.TheVariants as States;
ghost use Rattle.open_nodes.specs.Frontiers.{HasState, entry_at, sum_over};
ghost use Rattle.open_nodes.specs.Frontiers.{IsFrontier};
ghost use Rattle.open_nodes.specs.Nodes.{Entry};
ghost use Rattle.branching.specs.Internal.Growth.{HasSmallCut, IsSettled, MayGo, one_of};
ghost use Rattle.branching.specs.Internal.Search.{MayNotSplit};

use crate::budgets::Limits;
use crate::found_points::Found;
use crate::{BudgetWhat, Why};
use ip_defs::{Memory, Parts};
use node_bounds::{Branch, Chooser, Node};
use open_nodes::{Frontier, Solved};

/// What came of a round.
#[derive(Clone, Copy, Debug)]
pub enum Step {
    /// The search goes on.
    Went,
    /// It ended: no node waits, or a limit stopped it.
    Ended(Option<BudgetWhat>),
}

/// A node that was taken: its key, its depth, the bound with which it waited, and whether its linear program was solved before.
#[derive(Clone, Copy, Debug)]
pub struct Place {
    pub key: usize,
    pub depth: u32,
    pub bound: i128,
    pub solved: bool,
}

/// Whether a reason has a certificate.
fn is_fractional(why: &Why) -> bool
    ensures { MatchBool result (stops why.now ≡ 0) ((why.now ≡ Reason.Stopped) ⊎ (why.now ≡ Reason.Wide)) }
{
    match why {
        Why::Fractional { .. } => true,
        Why::Stopped | Why::Wide => false,
    }
}

/// Whether a node has to wait that asks for a split for a reason: its linear program was not solved before, and another node waits with a
/// bound that is less than its own.
fn has_to_wait(frontier: &Frontier, solved: bool, why: &Why, bound: i128) -> bool
    requires { IsFrontier frontier.now }
    ensures { MatchBool result ((solved ≡ false) × (stops why.now ≡ 0)) (MayGo frontier.now solved why.now bound) }
{
    if solved {
        return false;
    }
    if !is_fractional(why) {
        return false;
    }
    match frontier.next_bound() {
        Some(least) => least < bound,
        None => false,
    }
}

/// The limit that forbids a split of a node at a depth, where the tree has a number of nodes. The depth is tested first.
fn blocked_by(limits: Limits, depth: u32, nodes: u32) -> Option<BudgetWhat>
    requires depth { depth ≤ limits.depth }
    requires nodes { nodes ≤ limits.nodes }
    ensures some { IfSome result (MayNotSplit limits depth nodes) }
    ensures none { IfNone result ((depth < limits.depth) × (nodes + 2 ≤ limits.nodes)) }
{
    if depth >= limits.depth {
        return Some(BudgetWhat::Depth);
    }
    if limits.nodes - nodes < 2 {
        Some(BudgetWhat::Nodes)
    } else {
        None
    }
}

/// Settles a node that was taken by what is said of it: closes it, and keeps a better point; or puts it back, where another one waits with
/// a lesser bound than its own; or splits it. Where a limit forbids the split, the node is stuck and the search has ended.
pub fn settle(
    limits: Limits,
    place: Place,
    node: Node,
    parts: &Parts,
    chooser: &mut Chooser,
    found: &mut Found,
    frontier: &mut Frontier,
) -> Result<Step, Memory>
    requires most_nodes { limits.nodes ≤ 1000000 }
    requires most_depth { limits.depth ≤ 800 }
    requires whole { IsFrontier frontier.old }
    requires taken { HasState frontier.old place.key States.Taken }
    requires depth { (e : Entry) → entry_at frontier.old place.key ≡ Some e → length e.path ≡ place.depth }
    requires deep { place.depth ≤ limits.depth }
    requires nodes { sum_over one_of frontier.old ≤ limits.nodes }
    requires cut { HasSmallCut node }
    ensures whole { IsFrontier frontier.new }
    ensures settled { IfOk result (IsSettled limits place.key place.depth place.bound place.solved node found.old found.new frontier.old
        frontier.new) }
{
    match node {
        Node::Closed(cert) => {
            frontier.close(place.key, cert);
            Ok(Step::Went)
        }
        Node::Whole { point, cost, cert } => {
            *found = Some((point, cost));
            frontier.close(place.key, cert);
            Ok(Step::Went)
        }
        Node::Split(
            Branch {
                col,
                at,
                why,
                bound,
            },
        ) => {
            let bound = bound.max(place.bound);
            if has_to_wait(frontier, place.solved, &why, bound) {
                frontier.wait(place.key, bound, Solved { col, at, why })?;
                return Ok(Step::Went);
            }
            match blocked_by(limits, place.depth, frontier.len()) {
                Some(what) => {
                    frontier.stick(place.key, why);
                    Ok(Step::Ended(Some(what)))
                }
                None => {
                    match &why {
                        Why::Fractional { point, .. } => {
                            chooser.split(parts, point.as_slice(), col as usize)?
                        }
                        Why::Stopped | Why::Wide => chooser.halve()?,
                    }
                    frontier.split(place.key, col, at, why, bound)?;
                    Ok(Step::Went)
                }
            }
        }
    }
}
