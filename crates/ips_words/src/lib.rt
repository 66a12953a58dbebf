//! The words of a command line, and the requests that they are.
#![tactic(auto)]

mod by_command;
mod commands;
mod kinds;
mod options;
mod parser;
mod plain;
mod requests;
mod usage;
mod words;

pub use requests::{Request, WordsError};
pub use usage::{USAGE, usage_is_text};
pub use words::request;
