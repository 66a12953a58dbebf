//! Whether the proof of a cost sweep is within the limits and fits a model.
ghost use Rattle.std.specs.Prelude.{◌≡◌, ◌↔◌, ◌<◌, ◌≤◌, ◌^◌, IsTrue, length, sum_by};
ghost use Rattle.ip_defs.specs.Lists.{Each};
ghost use Rattle.proof_tree.specs.LabelledTrees.{node_count};
ghost use Rattle.proof_tree.specs.Trees.{plain};
ghost use Rattle.proof_tree.specs.Within.{IsTreeWithin};
ghost use Rattle.sweep_proof.specs.CostSweeps.{FitsBreak, FitsCostSweep, FitsPoint, FitsTree};

use crate::CostSweep;
use crate::fits::{are_small, tree_fits, tree_is_within, tree_nodes};
use frac128::Frac;
use ip_defs::Point;
use ip_model::IntModel;
use proof_tree::Tree;

/// The greatest number of points.
const MOST_POINTS: usize = 10_000;

/// The greatest number of nodes of all trees.
const MOST_NODES: u64 = 1_000_000;

/// The greatest absolute value of the numerator and the denominator of a break.
const LARGEST_PART: u128 = 1 << 80;

/// Whether a break is within its limits.
fn break_fits(number: Frac) -> bool
    ensures { IsTrue result ↔ FitsBreak number }
{
    number.num().unsigned_abs() <= LARGEST_PART && number.den().unsigned_abs() <= LARGEST_PART
}

/// Whether each break is within its limits.
fn breaks_fit(breaks: &[Frac]) -> bool
    ensures { IsTrue result ↔ Each FitsBreak breaks.now }
{
    for number in breaks {
        if !break_fits(*number) {
            return false;
        }
    }
    true
}

/// Whether a point has one coordinate for each column, each within its limit.
fn point_fits(model: &IntModel, point: &Point) -> bool
    ensures { IsTrue result ↔ FitsPoint model.now point.now }
{
    point.as_slice().len() == model.parts().columns.as_slice().len() && are_small(point.as_slice())
}

/// Whether each point fits.
fn points_fit(model: &IntModel, points: &[Point]) -> bool
    ensures { IsTrue result ↔ Each (FitsPoint model.now) points.now }
{
    for point in points {
        if !point_fits(model, point) {
            return false;
        }
    }
    true
}

/// Whether a tree is within the limits of trees and fits a model.
fn sweep_tree_fits(model: &IntModel, tree: &Tree) -> bool
    ensures { IsTrue result ↔ FitsTree model.now (plain tree.now) }
{
    let columns = model.parts().columns.as_slice().len();
    let rows = model.parts().rows.as_slice().len();
    tree_is_within(tree) && tree_fits(tree, columns, rows)
}

/// Whether each tree fits.
fn trees_fit(model: &IntModel, trees: &[Tree]) -> bool
    ensures { IsTrue result ↔ Each (λ t. FitsTree model.now (plain t)) trees.now }
{
    for tree in trees {
        if !sweep_tree_fits(model, tree) {
            return false;
        }
    }
    true
}

/// Whether all trees together have at most as many nodes as they may have.
fn are_nodes_few(trees: &[Tree]) -> bool
    requires { Each (λ t. IsTreeWithin (plain t)) trees.now }
    ensures { IsTrue result ↔ sum_by (λ t. node_count (plain t)) trees.now ≤ 1000000 }
{
    let mut total = 0;
    for tree in trees {
        total += u64::from(tree_nodes(tree));
        if total > MOST_NODES {
            return false;
        }
    }
    true
}

/// Whether the proof of a cost sweep is within the limits and fits a model: it has at most 10,000 points, each with one coordinate for
/// each column, of at most 2^24 in absolute value; the numerator and the denominator of each break are at most 2^80 in absolute value;
/// each tree is within the limits of trees, its columns and rows exist in the model, and all trees together have at most 1,000,000
/// nodes. Whether there are as many breaks and trees as the points ask for is left to the check. Takes no memory.
pub fn cost_sweep_fits(model: &IntModel, sweep: &CostSweep) -> bool
    ensures { IsTrue result ↔ FitsCostSweep model.now sweep.now }
{
    let points = sweep.points.as_slice();
    let trees = sweep.trees.as_slice();
    if points.len() > MOST_POINTS || !breaks_fit(sweep.breaks.as_slice()) {
        return false;
    }
    if !points_fit(model, points) {
        return false;
    }
    if !trees_fit(model, trees) {
        return false;
    }
    are_nodes_few(trees)
}
