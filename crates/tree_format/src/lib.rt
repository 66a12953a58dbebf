//! The bytes of proof trees and of row sweeps: writing them, reading them whole, and reading trees one byte at a time.
//!
//! The grammars stand in `specs/` over the whole list of bytes. Trees are read by a reader of one byte at a time, row sweeps by a
//! recursive descent.
#![tactic(auto)]

mod cert_steps;
mod claim_steps;
mod decoding;
mod encoding;
mod errors;
mod fields;
mod laws;
mod number_steps;
mod numbers;
mod pending;
mod progress;
mod readers;
mod row_decoding;
mod row_encoding;
mod tokens;
mod tree_steps;
mod values;

pub use decoding::decode;
pub use encoding::encode;
pub use errors::TreeError;
pub use ip_defs::{Cert, Memory, Multipliers, Point};
pub use laws::{
    faults_stand, fitting_sweeps_are_within, one_row_spelling, one_spelling, parts_are_in_order,
    readings_are_spelled, row_readings_are_spelled, row_spellings_are_read, spellings_are_read,
};
pub use proof_tree::{Claim, Proof, Tree};
pub use readers::{TreeReader, tree_reader};
pub use row_decoding::decode_rows;
pub use row_encoding::encode_rows;
pub use sweep_proof::{RowPiece, RowPieces, RowSweep};
pub use tokens::Token;
