//! Exact decimal numbers: reading them, counting them in units of a power of ten, and writing units.
#![tactic(auto)]

mod numbers;
mod numerals;
mod scales;
mod writing;

pub use ip_defs::Memory;
pub use mps_defs::Number;
pub use numbers::{read_number, signed};
pub use numerals::{are_digits, value_from};
pub use scales::{scaled, units};
pub use writing::decimal_text;
