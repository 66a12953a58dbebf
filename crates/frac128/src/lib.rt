//! Exact fractions with numerators and denominators of 128 bits.
//!
//! A [`Frac`] is in lowest terms. An operation answers the exact reduced fraction, or [`Wide`] where an intermediate number leaves
//! **the range**, from -(2^127 - 1) to 2^127 - 1. Nothing is rounded, and nothing is allocated.
#![tactic(auto)]

mod checked;
mod comparison;
mod division;
mod divisors;
mod fraction;
mod making;
mod products;
mod signs;
mod small;
mod sums;
mod words;

pub use comparison::cmp;
pub use division::{ceil_div, floor_div};
pub use divisors::gcd;
pub use fraction::{Frac, Wide};
pub use making::frac;
pub use products::{div, mul};
pub use sums::{add, sub};
