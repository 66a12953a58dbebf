//! MPS texts: their numbers, their records, the model of a text or its first fault, and the canonical text of a model.
//!
//! The definitions in `specs/` are about the whole list of lines of a text, and know no reader.
#![tactic(auto)]

mod reading;

pub use reading::{How, MpsError, Number, Side};
