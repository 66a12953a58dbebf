//! Claims of a model, and the trees that are to prove them.
use crate::Tree;
use ip_defs::Point;

/// What a proof claims of a model.
#[derive(Debug, Drop)]
pub enum Claim {
    /// The point is optimal: feasible, and no feasible point costs less.
    Best(Point),
    /// The model is infeasible: no point is feasible.
    Empty,
}

/// A claim and the tree that is to prove it.
#[derive(Debug, Drop)]
pub struct Proof {
    pub claim: Claim,
    pub tree: Tree,
}
