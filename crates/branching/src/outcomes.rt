//! How a search ends.
use crate::{BudgetWhat, OpenTree, Whys};
use ip_defs::Point;
use proof_tree::Proof;

/// How a search ends.
#[derive(Debug, Drop)]
pub enum Outcome {
    /// The claimed point is feasible and none costs less. The reasons are those of the proof's splits, in preorder.
    Best {
        proof: Proof,
        reasons: Whys,
    },
    /// No point is feasible. The reasons are those of the proof's splits, in preorder.
    Empty {
        proof: Proof,
        reasons: Whys,
    },
    /// The search stopped at a limit, with the tree that it has grown and the best point that it has found.
    Budget {
        what: BudgetWhat,
        grown: OpenTree,
        best: Option<Point>,
    },
}
