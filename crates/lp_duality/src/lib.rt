//! Relaxations of nodes and dual values over the rational numbers: definitions and laws.
#![tactic(auto)]

mod fracs;
mod laws;

pub use fracs::Fracs;
pub use laws::{
    certificates_have_their_duals, duals_are_scaled, feasible_points_are_relaxed, prices_bound,
    rays_bound, relaxed_weak_duality,
};
