//! Reads integer programs from MPS texts: each text has its model, or is refused for its first fault.
#![tactic(auto)]

mod bounds;
mod clamps;
mod column_list;
mod column_rules;
mod columns;
mod draft;
mod entries;
mod kept_sets;
mod lines;
mod models;
mod reader;
mod right_sides;
mod rounding;
mod row_list;
mod rows;
mod sections;

pub use mps_defs::{How, MpsError, Side};
pub use reader::read;
