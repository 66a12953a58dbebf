//! Proposals of a point with a certificate, and the check that decides whether they are right: complementary slackness.
#![tactic(auto)]

mod checks;
mod columns;
mod laws;
mod points;
mod products;
mod proposals;
mod rows;

pub use checks::is_optimal;
pub use laws::complementary_slackness;
pub use points::optimum;
pub use proposals::{Numerators, Proposal};
