//! The top call: from the words of a command line and the files of a shelf to the text that a sink takes. Each command has a module.
#![tactic(auto)]

mod answers;
mod ask;
mod check;
mod command_lines;
mod commands;
mod files;
mod model_refusals;
mod models;
mod proof_files;
mod question_files;
mod question_refusals;
mod recheck;
mod refusals;
mod show;
mod solve;
mod statuses;
mod sweep;
mod sweep_files;
mod sweep_proof_files;
mod tree_refusals;
mod trees;

pub use command_lines::run;
pub use commands::{ask_at, check_at, recheck_at, show_at, solve_at, sweep_at};
pub use ips_words::{Request, WordsError, request};
pub use statuses::{Status, code, complaint, report};
