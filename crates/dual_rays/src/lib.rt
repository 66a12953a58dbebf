//! Certificates with whole numbers from dual prices and from rays, which are fractions.
//!
//! The linear program of a node has an optimal dual solution, a price for each row, or a dual ray. [`cert_of_prices`] and
//! [`cert_of_ray`] turn these into certificates with the same bound, where the whole numbers stay within the limit.
#![tactic(auto)]

mod denominators;
mod multipliers;
mod prices;
mod rays;

pub use ip_defs::{Cert, Memory, Multipliers};
pub use lp_duality::Fracs;
pub use prices::cert_of_prices;
pub use rays::cert_of_ray;
