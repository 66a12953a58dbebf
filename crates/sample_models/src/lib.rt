//! Small integer programs with known answers and large ones made by formulas, for tests and for programs that measure times.
//!
//! `builders` puts columns and rows together; `small` and `large` have the models by name, and `tree_files` tree files for two of them.
//! Names of columns and rows are empty, and costs and rows have no decimals.
#![tactic(auto)]

mod builders;
mod errors;
mod large;
mod small;
mod tree_files;

pub use builders::{column, is_box, model, model_of, parts, row};
pub use errors::SampleError;
pub use large::{at_every_limit, block_model, dense_model, wide_columns};
pub use small::{
    difference, empty_column, half, negative_sum, no_rows, one_column, parity, three_rows,
};
pub use tree_files::{ONE_LEAF, TWO_SPLITS};
