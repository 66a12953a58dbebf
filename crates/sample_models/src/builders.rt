//! Columns, rows and models from their numbers, and a test of boxes.
ghost use Rattle.std.specs.Prelude.{IsTrue};
ghost use Rattle.ip_defs.specs.Limits.{IsArea};

use crate::SampleError;
use ip_defs::{Area, Coefs, Column, ColumnList, Memory, Name, Parts, Row, RowList};
use ip_model::{IntModel, make, well_shaped};
use std::alloc::{Alloc, Global};

/// The greatest absolute value of a bound of a column.
const LARGEST_BOUND: u64 = 1 << 24;

fn no_name(alloc: Global) -> Name {
    Name::new(String::new(alloc))
}

/// A column with its cost and its bounds, without a name.
pub fn column(alloc: Global, cost: i64, lo: i64, hi: i64) -> Column {
    Column {
        name: no_name(alloc),
        cost,
        lo,
        hi,
    }
}

/// A row with its coefficients by column number and its sides, without a name and without decimals.
pub fn row(
    alloc: Global,
    coefs: &[(u32, i64)],
    low: Option<i64>,
    high: Option<i64>,
) -> Result<Row, Memory> {
    Ok(Row {
        name: no_name(alloc),
        decimals: 0,
        coefs: Coefs::from_vec(Vec::from_slice(alloc, coefs)?),
        low,
        high,
    })
}

/// The parts of a program with a constant, columns and rows. Costs have no decimals, and the objective has no name.
pub fn parts(alloc: Global, constant: i64, columns: Vec<Column>, rows: Vec<Row>) -> Parts {
    Parts {
        objective: no_name(alloc),
        cost_decimals: 0,
        constant,
        columns: ColumnList::from_vec(columns),
        rows: RowList::from_vec(rows),
    }
}

/// The model of parts. Where they are not well shaped, or exceed a limit, the answer is `NoModel`.
pub fn model_of(parts: Parts) -> Result<IntModel, SampleError> {
    if !well_shaped(&parts) {
        return Err(SampleError::NoModel);
    }
    match make(parts) {
        Ok(model) => Ok(model),
        Err(_) => Err(SampleError::NoModel),
    }
}

/// The model of columns and rows, with the constant 0.
pub fn model(alloc: Global, columns: Vec<Column>, rows: Vec<Row>) -> Result<IntModel, SampleError> {
    model_of(parts(alloc, 0, columns, rows))
}

/// Whether a box has one pair for each of `columns` columns, and no bound exceeds 2^24 in absolute value.
pub fn is_box(area: &Area, columns: usize) -> bool
    ensures { IsTrue result → IsArea columns area.now }
{
    area.as_slice().len() == columns
        && area.as_slice().iter().all(|side| side.0.unsigned_abs() <= LARGEST_BOUND
            && side.1.unsigned_abs() <= LARGEST_BOUND)
}
