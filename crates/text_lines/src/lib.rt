//! The lines of a text and the fields of a line: a line feed ends a line, and blanks and tabs separate fields.
#![tactic(auto)]

mod fields;
mod lines;

pub use fields::fields_of;
pub use lines::{cut_return, is_comment, lines_in};
