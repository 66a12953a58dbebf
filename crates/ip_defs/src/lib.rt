//! The data of integer programs, and the definitions that the contracts of all other crates use.
//!
//! The types are plain: contracts see their fields, a list type as its list and a name as its bytes. The definitions in `specs/`
//! are what a reader must believe; the laws in `proofs/` are checked.
#![tactic(auto)]

mod certificates;
mod limits;
mod listed;
mod memory;
mod names;
mod programs;

pub use certificates::{Bound, Cert, weak_duality};
pub use limits::{Limit, What};
pub use listed::{Area, Coefs, ColumnList, Listed, Multipliers, Point, RowList};
pub use memory::Memory;
pub use names::Name;
pub use programs::{Breach, Column, Parts, Row, breaches_are_exact};
