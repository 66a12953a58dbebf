//! Models of at most three columns, whose optimal values are known.

use crate::SampleError;
use crate::builders::{column, model, row};
use ip_model::IntModel;
use std::alloc::Global;

/// Minimize -5a - 4b - 3c subject to 2a + 3b + c <= 5, 4a + b + 2c <= 11 and 3a + 4b + 2c <= 8, each column from 0 to 10. The optimal
/// point is (2, 0, 1), of cost -13.
pub fn three_rows(alloc: Global) -> Result<IntModel, SampleError> {
    let columns = vec![in alloc;
        column(alloc, -5, 0, 10),
        column(alloc, -4, 0, 10),
        column(alloc, -3, 0, 10),
    ]?;
    let rows = vec![in alloc;
        row(alloc, &[(0, 2), (1, 3), (2, 1)], None, Some(5))?,
        row(alloc, &[(0, 4), (1, 1), (2, 2)], None, Some(11))?,
        row(alloc, &[(0, 3), (1, 4), (2, 2)], None, Some(8))?,
    ]?;
    model(alloc, columns, rows)
}

/// Minimize -x subject to 2x <= 3, with x from 0 to `most`. From `most` = 1 on the optimal point is 1; the relaxation has 3/2 from
/// `most` = 2 on.
pub fn half(alloc: Global, most: i64) -> Result<IntModel, SampleError> {
    let rows = vec![in alloc; row(alloc, &[(0, 2)], None, Some(3))?]?;
    model(alloc, vec![in alloc; column(alloc, -1, 0, most)]?, rows)
}

/// No costs, low <= 2x - 2y <= high, with x and y from 0 to `most`.
pub fn difference(alloc: Global, most: i64, low: i64, high: i64) -> Result<IntModel, SampleError> {
    let columns = vec![in alloc; column(alloc, 0, 0, most), column(alloc, 0, 0, most)]?;
    let rows = vec![in alloc; row(alloc, &[(0, 2), (1, -2)], Some(low), Some(high))?]?;
    model(alloc, columns, rows)
}

/// No costs, 2x - 2y = 1, with x and y from 0 to `most`: infeasible, though its relaxation is not.
pub fn parity(alloc: Global, most: i64) -> Result<IntModel, SampleError> {
    difference(alloc, most, 1, 1)
}

/// One column with its cost and its bounds, without rows.
pub fn one_column(alloc: Global, cost: i64, lo: i64, hi: i64) -> Result<IntModel, SampleError> {
    let columns = vec![in alloc; column(alloc, cost, lo, hi)]?;
    model(alloc, columns, Vec::new(alloc))
}

/// Minimize 2x - y without rows, with x and y from 0 to 4. The optimal point is (0, 4).
pub fn no_rows(alloc: Global) -> Result<IntModel, SampleError> {
    let columns = vec![in alloc; column(alloc, 2, 0, 4), column(alloc, -1, 0, 4)]?;
    model(alloc, columns, Vec::new(alloc))
}

/// One column from 5 to 3: infeasible.
pub fn empty_column(alloc: Global) -> Result<IntModel, SampleError> {
    one_column(alloc, 1, 5, 3)
}

/// Minimize -x - y subject to x + y <= -1, with x and y from 0 to 1: infeasible, and so is its relaxation.
pub fn negative_sum(alloc: Global) -> Result<IntModel, SampleError> {
    let columns = vec![in alloc; column(alloc, -1, 0, 1), column(alloc, -1, 0, 1)]?;
    let rows = vec![in alloc; row(alloc, &[(0, 1), (1, 1)], None, Some(-1))?]?;
    model(alloc, columns, rows)
}
