//! Row sweeps: the exact optimal value of a model at each step of a direction that widens its row sides.
#![tactic(auto)]

mod courses;
mod gaps;
mod solving;
mod stops;
mod sweeps;
mod walks;

pub use branching::{BudgetWhat, Limits, OpenTree, Steps};
pub use ip_defs::{Memory, Point};
pub use ip_model::{IntModel, Place};
pub use stops::RowStop;
pub use sweep_proof::{RowPiece, RowPieces, RowSweep};
pub use sweep_solves::{Made, Mades};
pub use sweeps::sweep_rows;
