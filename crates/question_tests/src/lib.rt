//! Tests of changed models and of questions about them; no crate stands on this one.
#![tactic(auto)]

#[cfg(test)]
mod edit_tests;
#[cfg(test)]
mod file_tests;
#[cfg(test)]
mod line_tests;
#[cfg(test)]
mod models;
