//! Tables of cases. The functions that a table calls make and drop what they use, and answer numbers or errors that are copied.

mod encodings;
mod leaf_bounds;
mod models;
mod row_files;
mod trees;
mod verdicts;
