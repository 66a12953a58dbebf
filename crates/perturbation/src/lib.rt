//! Changed models: edits of numbers by name, and the models along a line of costs or of row sides.
#![tactic(auto)]

mod applying;
mod copies;
mod cost_lines;
mod edits;
mod locating;
mod replacing;
mod row_lines;

pub use applying::{apply, decimals_at};
pub use cost_lines::cost_line;
pub use decimals::Number;
pub use edits::{Change, Datum, Edit, EditError, LineError, PlaceError};
pub use ip_defs::{Memory, Name};
pub use ip_model::{IntModel, Place};
pub use locating::locate;
pub use replacing::number_at;
pub use row_lines::row_line;
