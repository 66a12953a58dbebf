//! Proofs of cost sweeps: an optimal point of a model at each parameter of moving costs, piece by piece.

use frac128::Frac;
use ip_defs::{Listed, Point};
use proof_tree::Tree;

/// The breaks of a cost sweep, from its first parameter to its last one.
pub type Breaks = Listed<Frac>;

/// The points of the pieces of a cost sweep, in the order of their parameters.
pub type Points = Listed<Point>;

/// The trees of the breaks of a cost sweep, in their order.
pub type Trees = Listed<Tree>;

/// The proof of a cost sweep. Piece k lies between the breaks k and k + 1; the claim is that its point is optimal at each parameter of it,
/// both breaks among them. The tree of a break bounds the model there. So there is one break and one tree more than there are points. The
/// proof that a model is infeasible has no point, the two ends of the sweep as breaks, and one tree.
#[derive(Debug, Drop)]
pub struct CostSweep {
    pub breaks: Breaks,
    pub points: Points,
    pub trees: Trees,
}
