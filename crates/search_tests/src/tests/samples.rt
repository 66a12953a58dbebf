//! The models of the searches.

use ip_model::IntModel;
use sample_models::{
    SampleError, column, difference, empty_column, half, model, negative_sum, no_rows, parity, row,
    three_rows, wide_columns,
};
use std::alloc::Global;

/// A model by name, some with a number.
#[derive(Clone, Copy)]
pub enum Sample {
    /// One row whose relaxation is best at 3/2, with the column from 0 to 5.
    Half,
    NoRows,
    ThreeRows,
    /// No whole point, with the columns from 0 to this number.
    Parity(i64),
    EmptyColumn,
    NegativeSum,
    WideVertex,
    Knapsack,
    /// No costs and 13 <= 2x - 2y <= 14, with the columns from 0 to 20.
    Difference,
    /// As many wide columns, and one column of cost -1.
    WideColumns(u32),
}

/// Minimize -ax - by where ax <= 3 * 2^29 + 1 and by <= 3 * 2^29 - 1, a = 2^30 + 1 and b = 2^30 - 1, with x and y from 0 to 3. The
/// vertex lies near (3/2, 3/2), and its common denominator has 60 bits.
fn wide_vertex(alloc: Global) -> Result<IntModel, SampleError> {
    let (a, b) = ((1 << 30) + 1, (1 << 30) - 1);
    let columns = vec![in alloc; column(alloc, -a, 0, 3), column(alloc, -b, 0, 3)]?;
    let rows = vec![in alloc;
        row(alloc, &[(0, a)], None, Some((3 << 29) + 1))?,
        row(alloc, &[(1, b)], None, Some((3 << 29) - 1))?,
    ]?;
    model(alloc, columns, rows)
}

/// Minimize -21x - 34y - 55z subject to 21x + 34y + 55z <= 713, with the columns from 0 to 9.
fn knapsack(alloc: Global) -> Result<IntModel, SampleError> {
    let columns = vec![in alloc;
        column(alloc, -21, 0, 9),
        column(alloc, -34, 0, 9),
        column(alloc, -55, 0, 9),
    ]?;
    let weights = row(alloc, &[(0, 21), (1, 34), (2, 55)], None, Some(713))?;
    model(alloc, columns, vec![in alloc; weights]?)
}

/// The model of a name.
pub fn model_of(alloc: Global, sample: Sample) -> Result<IntModel, SampleError> {
    match sample {
        Sample::Half => half(alloc, 5),
        Sample::NoRows => no_rows(alloc),
        Sample::ThreeRows => three_rows(alloc),
        Sample::Parity(most) => parity(alloc, most),
        Sample::EmptyColumn => empty_column(alloc),
        Sample::NegativeSum => negative_sum(alloc),
        Sample::WideVertex => wide_vertex(alloc),
        Sample::Knapsack => knapsack(alloc),
        Sample::Difference => difference(alloc, 20, 13, 14),
        Sample::WideColumns(count) => wide_columns(alloc, count),
    }
}
