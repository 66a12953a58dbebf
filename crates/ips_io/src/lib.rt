//! The outside of a run: a shelf of files and a sink of output, whose failures are counted, and the two calls that read a whole
//! file and write a whole text over them.
#![tactic(auto)]

mod begun_names;
mod memory_shelves;
mod memory_sinks;
mod places;
mod plans;
mod reading;
mod real_files;
mod real_output;
mod shelves;
mod sinks;
mod tables;
mod writing;

pub use memory_shelves::{MemShelf, mem_shelf};
pub use memory_sinks::{MemSink, mem_sink};
pub use reading::{ReadError, read_all};
pub use real_files::{FileShelf, file_shelf};
pub use real_output::{OutSink, out_sink};
pub use shelves::{Failed, Shelf};
pub use sinks::Sink;
pub use writing::write_all;
