//! Proofs of row sweeps: the optimal value of a model at each step of moving row sides, piece by piece.

use ip_defs::Listed;
use proof_tree::{Claim, Tree};

/// A run of steps with one value, from the step `from` to the step `to`, both among them. The claim is that of the value: its point is
/// feasible at `from`, and the tree bounds the model at `to`.
#[derive(Debug, Drop)]
pub struct RowPiece {
    pub from: u32,
    pub to: u32,
    pub claim: Claim,
    pub tree: Tree,
}

/// The pieces of a row sweep, in the order of their steps.
pub type RowPieces = Listed<RowPiece>;

/// The proof of a row sweep.
#[derive(Debug, Drop)]
pub struct RowSweep {
    pub pieces: RowPieces,
}
