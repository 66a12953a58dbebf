//! The tests of the search, and the searches that they are run with.

mod endings;
mod outcomes;
mod proposers;
mod samples;
mod searches;
mod stops;
