//! Verdicts on proofs.
use ip_defs::{Bound, Breach};

/// The result of checking a proof.
#[derive(Clone, Copy, Debug, PartialEq, Eq)]
pub enum Verdict {
    /// The claim is proved; the cost is that of the claimed point, or None for the claim that the model is infeasible.
    Proved { cost: Option<i128> },
    /// The claimed point violates the bounds of a column or the sides of a row.
    NotFeasible(Breach),
    /// The bound of the tree is below the claimed cost; a claim of None is that of infeasibility.
    Short { bound: Bound, claim: Option<i128> },
}
