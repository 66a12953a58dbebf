//! Whether the proof of a row sweep is within the limits and fits a model.
ghost use Rattle.std.specs.Prelude.{◌≡◌, ◌↔◌, ◌<◌, ◌≤◌, ◌^◌, IsTrue, length, sum_by};
ghost use Rattle.std.specs.Int.RustNames.{unsigned_abs};
ghost use Rattle.ip_defs.specs.Lists.{Each};
ghost use Rattle.proof_tree.specs.LabelledTrees.{node_count};
ghost use Rattle.proof_tree.specs.Trees.{FitsColumns, FitsModel, FitsRows, plain};
ghost use Rattle.proof_tree.specs.Verdicts.{HasLength};
ghost use Rattle.proof_tree.specs.Within.{IsTreeWithin};
ghost use Rattle.sweep_proof.specs.RowSweeps.{FitsPiece, FitsPieces, HasSmallPoint};

use crate::{RowPiece, RowSweep};
use ip_model::IntModel;
use proof_tree::{Claim, Tree, tree_limits};

/// The greatest number of pieces.
const MOST_PIECES: usize = 10_000;

/// The last step that a piece may have.
const LAST_STEP: u32 = 1_000_000;

/// The greatest number of nodes of all trees.
const MOST_NODES: u64 = 1_000_000;

/// The greatest absolute value of a coordinate.
const LARGEST_COORDINATE: u64 = 1 << 24;

/// Whether each coordinate is within its limit.
pub(crate) fn are_small(point: &[i64]) -> bool
    ensures { IsTrue result ↔ Each (λ z. unsigned_abs z ≤ 2 ^ 24) point.now }
{
    for coordinate in point {
        if coordinate.unsigned_abs() > LARGEST_COORDINATE {
            return false;
        }
    }
    true
}

/// Whether a claimed point has one coordinate for each column, each within its limit.
fn claim_fits(columns: usize, claim: &Claim) -> bool
    ensures { IsTrue result ↔ (HasLength columns claim.now × HasSmallPoint claim.now) }
{
    match claim {
        Claim::Best(point) => { point.as_slice().len() == columns && are_small(point.as_slice()) }
        Claim::Empty => true,
    }
}

/// Whether each row number is below a number of rows.
fn are_below(y: &[(u32, i64)], rows: usize) -> bool
    ensures { IsTrue result ↔ Each (λ p. p.0 < rows) y.now }
{
    for (row, _) in y {
        if *row as usize >= rows {
            return false;
        }
    }
    true
}

/// Whether the columns and rows that a tree names exist.
pub(crate) fn tree_fits(tree: &Tree, columns: usize, rows: usize) -> bool
    ensures { IsTrue result ↔ (FitsColumns columns (plain tree.now) × FitsRows rows (plain tree.now)) }
{
    match tree {
        Tree::Leaf(cert) => are_below(cert.y.as_slice(), rows),
        Tree::Split {
            col,
            left,
            right,
            ..
        } => {
            (*col as usize) < columns
                && tree_fits(left, columns, rows)
                && tree_fits(right, columns, rows)
        }
    }
}

/// Whether a tree is within the limits.
pub(crate) fn tree_is_within(tree: &Tree) -> bool
    ensures { IsTrue result ↔ IsTreeWithin (plain tree.now) }
{
    match tree_limits(tree) {
        Some(_) => false,
        None => true,
    }
}

/// Whether a piece is within the limits and fits a model.
fn piece_fits(model: &IntModel, piece: &RowPiece) -> bool
    ensures { IsTrue result ↔ FitsPiece model.now piece.now }
{
    let columns = model.parts().columns.as_slice().len();
    let rows = model.parts().rows.as_slice().len();
    piece.from <= LAST_STEP
        && piece.to <= LAST_STEP
        && claim_fits(columns, &piece.claim)
        && tree_is_within(&piece.tree)
        && tree_fits(&piece.tree, columns, rows)
}

/// Whether each piece is within the limits and fits a model.
fn pieces_fit(model: &IntModel, pieces: &[RowPiece]) -> bool
    ensures { IsTrue result ↔ Each (FitsPiece model.now) pieces.now }
{
    for piece in pieces {
        if !piece_fits(model, piece) {
            return false;
        }
    }
    true
}

/// How many nodes a tree has.
pub(crate) fn tree_nodes(tree: &Tree) -> u32
    requires { node_count (plain tree.now) ≤ 1000000 }
    ensures { result ≡ node_count (plain tree.now) }
{
    match tree {
        Tree::Leaf(_) => 1,
        Tree::Split { left, right, .. } => tree_nodes(left) + tree_nodes(right) + 1,
    }
}

/// How many nodes the trees of all pieces have.
fn nodes_of(pieces: &[RowPiece]) -> u64
    requires few { length pieces.now ≤ 10000 }
    requires each { Each (λ p. IsTreeWithin (plain p.tree)) pieces.now }
    ensures { result ≡ sum_by (λ p. node_count (plain p.tree)) pieces.now }
{
    let mut total = 0;
    for piece in pieces {
        total += u64::from(tree_nodes(&piece.tree));
    }
    total
}

/// Whether the proof of a row sweep is within the limits and fits a model: it has 1 to 10,000 pieces with steps of at most 10^6; a
/// claimed point has one coordinate for each column, of at most 2^24 in absolute value; each tree is within the limits of trees, its
/// columns and rows exist in the model, and all trees together have at most 1,000,000 nodes. Whether the pieces cover a sweep is left to
/// the check. Takes no memory.
pub fn row_sweep_fits(model: &IntModel, sweep: &RowSweep) -> bool
    ensures { IsTrue result ↔ FitsPieces model.now sweep.now.pieces }
{
    let pieces = sweep.pieces.as_slice();
    if pieces.is_empty() || pieces.len() > MOST_PIECES {
        return false;
    }
    if !pieces_fit(model, pieces) {
        return false;
    }
    nodes_of(pieces) <= MOST_NODES
}
