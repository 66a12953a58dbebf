//! The canonical MPS text of a model: the same model is always printed as the same bytes, in one order and one spelling.
#![tactic(auto)]

mod column_entries;
mod columns;
mod lines;
mod names;
mod printer;
mod rows;

pub use ip_defs::Memory;
pub use names::printable;
pub use printer::print;
