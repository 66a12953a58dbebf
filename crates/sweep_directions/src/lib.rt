//! The directions of a sweep of row sides in a model: the sides that they name, and their numbers in the units of those rows.
#![tactic(auto)]

mod bounds;
mod directing;
mod grids;
mod places;

pub use directing::{Directions, row_directions};
pub use ip_model::{IntModel, Place};
pub use perturbation::EditError;
pub use question_text::SideDirs;
