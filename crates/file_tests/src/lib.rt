//! Tests of model files, shelves and command lines, in a crate of their own: a crate that holds its tests is proved once more with them.
//! What is printed of a model, or of words that are no command, stands as a command line of the program `ipsens_runs`.
#![tactic(auto)]

#[cfg(test)]
mod printing;
#[cfg(test)]
mod reading;
#[cfg(test)]
mod requests;
#[cfg(test)]
mod shelves;
