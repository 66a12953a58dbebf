//! Tables of cases. The functions that a table calls make and drop what they use, and answer verdicts that are copied.

mod cost_proofs;
mod drawn_sweeps;
mod few_solves;
mod row_directions;
mod row_proofs;
mod row_sweeps;
