//! Tests of the top call, in a crate of their own: a crate that holds its tests is proved once more with them. What needs neither a
//! shelf in memory nor a file made by a formula stands as a command line of the program `ipsens_runs`.
#![tactic(auto)]

#[cfg(test)]
mod tests;
