//! The tableau of a node's linear system, in exact fractions: what the simplex steps on.
//!
//! A node has one variable for each column, with the two sides of its area, and one slack for each row, with the row's sides.
//! Variables are numbered columns first. Contracts see a tableau as plain data: rows of fractions, a basic variable for each row,
//! the position of each variable, and the node's variables. Every number is exact, or [`Wide`] where a step of its definition is.
#![tactic(auto)]

mod fractions;
mod lines;
mod numbers;
mod pivots;
mod positions;
mod starts;
mod steps;
mod tables;
mod variables;

pub use frac128::{Frac, Wide};
pub use positions::Rest;
pub use starts::start;
pub use steps::Steps;
pub use tables::Tableau;
pub use variables::{Variable, present_side};
