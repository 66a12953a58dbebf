//! The tests of the top call, and what they are run with.

mod failures;
mod limits;
mod pieces;
mod runs;
mod texts;
