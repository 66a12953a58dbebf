//! Tests of sweeps, in a crate of their own: a crate that holds its tests is proved once more with them.
#![tactic(auto)]

#[cfg(test)]
mod tests;
