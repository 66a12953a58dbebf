//! Allowable ranges: how far a number of a model can change while the tree of a proof still proves an aim, found without solving again
//! and without building a changed model.
#![tactic(auto)]

mod aims;
mod asked;
mod ends;
mod goodness;
mod points;
mod ranges;
mod steps;
mod tries;

pub use aims::Aim;
pub use ip_model::{IntModel, Place};
pub use leaf_cert::Scratch;
pub use proof_tree::Tree;
pub use ranges::range;
