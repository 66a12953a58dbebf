//! Proofs of sweeps, and the check whether one is proved: the exact value of a model at each step of a direction of row sides, or an
//! optimal point at each rational parameter of a direction of the costs.
#![tactic(auto)]

mod breaks;
mod checks;
mod cost_checks;
mod cost_fits;
mod cost_laws;
mod cost_sweeps;
mod fits;
mod laws;
mod row_sweeps;
mod slopes;
mod steps;
mod verdicts;

pub use checks::check_row_sweep;
pub use cost_checks::check_cost_sweep;
pub use cost_fits::cost_sweep_fits;
pub use cost_laws::{
    cost_rules_are_true, costs_are_lines, exact_cost_sweeps_have_points, points_are_least_between,
};
pub use cost_sweeps::{Breaks, CostSweep, Points, Trees};
pub use fits::row_sweep_fits;
pub use frac128::Frac;
pub use ip_defs::{Bound, Breach, Memory, Point};
pub use laws::{exact_sweeps_have_values, later_steps_are_wider, row_rules_are_true};
pub use perturbation::{IntModel, Place};
pub use proof_tree::{Claim, Tree};
pub use row_sweeps::{RowPiece, RowPieces, RowSweep};
pub use verdicts::SweepVerdict;
