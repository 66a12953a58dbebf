//! Proof trees: their claims, the bound that they prove, and what may be wrong with them.
#![tactic(auto)]

mod claims;
mod faults;
mod fits;
mod laws;
mod limits;
mod trees;
mod verdicts;
mod walks;

pub use claims::{Claim, Proof};
pub use faults::{Shape, ShapeWhat, TreeLimit};
pub use fits::fits_model;
pub use ip_defs::{Bound, Breach, Cert, Point};
pub use laws::{
    limits_are_exact, misfits_are_true, proofs_are_true, trees_bound, verdicts_are_exact,
};
pub use limits::tree_limits;
pub use trees::Tree;
pub use verdicts::Verdict;
pub use walks::{lesser, tree_bound, tree_bound_at};
