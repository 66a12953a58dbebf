//! The tests, and the programs, tableaus and certificates that they are run with.

mod certificates;
mod linear_programs;
mod optimal_points;
mod programs;
mod proposals;
mod tableaus;
