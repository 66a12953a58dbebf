//! The pieces of a row sweep, made of the solves at the ends of its runs: runs of steps with one value.
#![tactic(auto)]

mod laws;
mod moves;
mod pieces;
mod runs;

pub use laws::{finished_solves_are_solves, runs_are_kept, runs_go_on};
pub use pieces::row_sweep_of;
pub use runs::Run;
pub use sweep_proof::{Claim, IntModel, Memory, Place, RowPiece, RowPieces, RowSweep, Tree};
pub use sweep_solves::{Made, Mades};
