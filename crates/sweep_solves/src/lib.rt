//! Finished solves of a sweep.
#![tactic(auto)]

mod made_solves;

pub use made_solves::{Made, Mades};
