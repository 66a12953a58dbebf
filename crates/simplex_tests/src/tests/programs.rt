//! Programs written as tables, and the models of them.

use dual_rays::Fracs;
use ip_defs::{Column, Memory, Row};
use ip_model::IntModel;
use sample_models::{SampleError, column, model_of, parts, row};
use std::alloc::Global;

/// A row: its coefficients by column number, its low side and its high side.
pub type Line<'a> = (&'a [(u32, i64)], Option<i64>, Option<i64>);

/// A program: the cost and the bounds of each column, and the rows.
#[derive(Clone, Copy)]
pub struct Program<'a> {
    pub columns: &'a [(i64, i64, i64)],
    pub rows: &'a [Line<'a>],
}

fn columns_of(alloc: Global, lines: &[(i64, i64, i64)]) -> Result<Vec<Column>, Memory> {
    let mut columns = Vec::with_capacity(alloc, lines.len())?;
    for (cost, lo, hi) in lines {
        columns.push(column(alloc, *cost, *lo, *hi))?;
    }
    Ok(columns)
}

fn rows_of(alloc: Global, lines: &[Line<'_>]) -> Result<Vec<Row>, Memory> {
    let mut rows = Vec::with_capacity(alloc, lines.len())?;
    for line in lines {
        rows.push(row(alloc, line.0, line.1, line.2)?)?;
    }
    Ok(rows)
}

/// The model of a program with a constant.
pub fn model_with(
    alloc: Global,
    constant: i64,
    program: Program<'_>,
) -> Result<IntModel, SampleError> {
    let columns = columns_of(alloc, program.columns)?;
    let rows = rows_of(alloc, program.rows)?;
    model_of(parts(alloc, constant, columns, rows))
}

/// Whether fractions have these numerators and denominators.
pub fn are_fractions(numbers: &Fracs, pairs: &[(i128, i128)]) -> bool {
    let numbers = numbers.as_slice();
    numbers.len() == pairs.len()
        && numbers
            .iter()
            .zip(pairs)
            .all(|(x, pair)| x.num() == pair.0 && x.den() == pair.1)
}
