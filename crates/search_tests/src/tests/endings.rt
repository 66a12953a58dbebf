//! How searches are expected to end, and whether an outcome is as expected.

use crate::tests::samples::Sample;
use branching::{BudgetWhat, Claim, Limits, OpenTree, Outcome, Point, Proof, Why};
use ip_defs::Bound;
use ip_model::{IntModel, first_breach};
use leaf_cert::scratch;
use proof_tree::{fits_model, tree_bound, tree_limits};
use std::alloc::Global;

/// How a search is expected to end.
#[derive(Clone, Copy)]
pub enum End<'a> {
    /// A point is claimed, and the tree proves that none costs less than this. It has this number of reasons.
    Best {
        point: &'a [i64],
        cost: i128,
        reasons: usize,
    },
    /// No point is claimed, and the tree proves it.
    Empty {
        reasons: usize,
    },
    /// A limit stopped the search at this best point so far, where there is one.
    Stopped {
        what: BudgetWhat,
        best: Option<&'a [i64]>,
    },
    /// The limit of nodes stopped the search, whatever the best point so far.
    OutOfNodes,
}

/// A search and what is expected of it: the end, the number of nodes of its tree and the number of splits that were skipped.
#[derive(Clone, Copy)]
pub struct Case<'a> {
    pub sample: Sample,
    pub limits: Limits,
    pub end: End<'a>,
    pub nodes: u32,
    pub skipped: u32,
}

/// A case of these parts.
pub fn case_of<'a>(
    sample: Sample,
    limits: Limits,
    end: End<'a>,
    nodes: u32,
    skipped: u32,
) -> Case<'a> {
    Case {
        sample,
        limits,
        end,
        nodes,
        skipped,
    }
}

/// Limits of nodes, depth and steps of a linear program.
pub fn limits(nodes: u32, depth: u32, pivots: u32) -> Limits {
    Limits {
        nodes,
        depth,
        pivots,
    }
}

/// Whether a proof is within the limits and fits its model, and its tree proves a bound.
fn has_bound(alloc: Global, model: &IntModel, proof: &Proof, bound: Bound) -> bool {
    if tree_limits(&proof.tree).is_some() || fits_model(model, proof).is_err() {
        return false;
    }
    let columns = model.parts().columns.as_slice().len();
    match scratch(alloc, model) {
        Ok(mut scratch) => {
            scratch.area.as_slice().len() == columns
                && tree_bound(alloc, model, &proof.tree, &mut scratch) == bound
        }
        Err(_) => false,
    }
}

/// Whether a claim is of this point.
fn is_best_point(claim: &Claim, coordinates: &[i64]) -> bool {
    match claim {
        Claim::Best(point) => point.as_slice() == coordinates,
        Claim::Empty => false,
    }
}

/// Whether a proof claims and proves what is expected, with this number of reasons.
fn proves(alloc: Global, model: &IntModel, proof: &Proof, count: usize, end: End<'_>) -> bool {
    match end {
        End::Best {
            point,
            cost,
            reasons,
        } => {
            is_best_point(&proof.claim, point)
                && count == reasons
                && has_bound(alloc, model, proof, Bound::At(cost))
        }
        End::Empty { reasons } => {
            matches!(&proof.claim, Claim::Empty)
                && count == reasons
                && has_bound(alloc, model, proof, Bound::Infinite)
        }
        _ => false,
    }
}

/// How many nodes are stuck: those whose linear program has a fraction, or else those whose linear program was skipped.
fn stuck_nodes(tree: &OpenTree, is_skipped: bool) -> u32 {
    match tree {
        OpenTree::Pending | OpenTree::Leaf(_) => 0,
        OpenTree::Stuck(Why::Fractional { .. }) => u32::from(!is_skipped),
        OpenTree::Stuck(_) => u32::from(is_skipped),
        OpenTree::Split { left, right, .. } => {
            stuck_nodes(left, is_skipped).saturating_add(stuck_nodes(right, is_skipped))
        }
    }
}

/// Whether a best point so far is feasible.
fn is_feasible(model: &IntModel, best: &Option<Point>) -> bool {
    match best {
        Some(point) => {
            point.as_slice().len() == model.parts().columns.as_slice().len()
                && first_breach(model, point).is_none()
        }
        None => true,
    }
}

/// Whether a best point so far is the expected one.
fn is_best(best: &Option<Point>, expected: Option<&[i64]>) -> bool {
    match best {
        Some(point) => expected == Some(point.as_slice()),
        None => expected.is_none(),
    }
}

/// Whether a stop is as expected.
fn is_stop(stopped: BudgetWhat, best: &Option<Point>, end: End<'_>) -> bool {
    match end {
        End::Stopped {
            what,
            best: expected,
        } => stopped == what && is_best(best, expected),
        End::OutOfNodes => stopped == BudgetWhat::Nodes,
        _ => false,
    }
}

/// Whether a stop is as expected, with one stuck node: for a fraction or, without steps, for a linear program that was skipped. The best
/// point is feasible.
fn is_right_stop(
    model: &IntModel,
    what: BudgetWhat,
    grown: &OpenTree,
    best: &Option<Point>,
    case: Case<'_>,
) -> bool {
    let is_skipped = case.limits.pivots == 0;
    is_stop(what, best, case.end)
        && is_feasible(model, best)
        && stuck_nodes(grown, is_skipped) == 1
        && stuck_nodes(grown, !is_skipped) == 0
}

/// Whether the end of a search is the expected one.
fn has_end(alloc: Global, model: &IntModel, outcome: &Outcome, case: Case<'_>) -> bool {
    match outcome {
        Outcome::Best { proof, reasons } => {
            proves(alloc, model, proof, reasons.as_slice().len(), case.end)
        }
        Outcome::Empty { proof, reasons } => {
            proves(alloc, model, proof, reasons.as_slice().len(), case.end)
        }
        Outcome::Budget { what, grown, best } => is_right_stop(model, *what, grown, best, case),
    }
}

/// Whether the outcome of a search with these numbers of nodes and of skipped splits is as expected.
pub fn is_as_expected(
    alloc: Global,
    model: &IntModel,
    outcome: &Outcome,
    nodes: u32,
    skipped: u32,
    case: Case<'_>,
) -> bool {
    nodes == case.nodes && skipped == case.skipped && has_end(alloc, model, outcome, case)
}
