//! The exact linear program of a node: the bounded simplex by the least-number rule, with the prices or the ray that prove its answer.
#![tactic(auto)]

mod answers;
mod blocking;
mod choices;
mod directions;
mod finals;
mod numbers;
mod sides;
mod signs;
mod solving;

pub use answers::LpAnswer;
pub use lp_duality::Fracs;
pub use solving::solve_lp;
pub use tableau::Steps;
