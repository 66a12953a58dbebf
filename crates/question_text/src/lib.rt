//! Question files and sweep files: each text is the written list, or is refused for its first fault.
#![tactic(auto)]

mod asking;
mod data;
mod directions;
mod errors;
mod heads;
mod lines;
mod questions;
mod reading;
mod sweep_reading;
mod sweeping;
mod sweeps;
mod texts;
mod words;

pub use errors::TextError;
pub use ip_defs::{Memory, Name};
pub use perturbation::{Change, Datum, Edit, Number};
pub use questions::{AimText, Edits, Question, Questions};
pub use reading::read_questions;
pub use sweep_reading::read_sweep;
pub use sweeps::{Dirs, SideDirs, Sweep};
