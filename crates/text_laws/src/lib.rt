//! Laws of the texts of programs: what is written is read back.
#![tactic(auto)]

mod laws;

pub use laws::{canonical_texts_are_read_back, models_read_are_canonical};
