//! The small model of the tests and its numbers as a list.

use ip_defs::{Coefs, Column, ColumnList, Memory, Name, Parts, Row, RowList};
use ip_model::IntModel;
use sample_models::{SampleError, model_of};
use std::alloc::Global;

/// A name.
pub fn name(alloc: Global, text: &str) -> Result<Name, Memory> {
    Ok(Name::new(String::from_str(alloc, text)?))
}

/// A column from 0 to 4.
fn column(alloc: Global, text: &str, cost: i64) -> Result<Column, Memory> {
    Ok(Column {
        name: name(alloc, text)?,
        cost,
        lo: 0,
        hi: 4,
    })
}

/// The columns x and y.
fn columns(alloc: Global) -> Result<ColumnList, Memory> {
    let mut list = ColumnList::from_vec(Vec::new(alloc));
    list.push(column(alloc, "x", 2)?)?;
    list.push(column(alloc, "y", -1)?)?;
    Ok(list)
}

/// The row r.
fn rows(alloc: Global, decimals: u8) -> Result<RowList, Memory> {
    let row = Row {
        name: name(alloc, "r")?,
        decimals,
        coefs: Coefs::from_vec(Vec::from_slice(alloc, &[(0, 2), (1, -2)])?),
        low: None,
        high: Some(3),
    };
    let mut list = RowList::from_vec(Vec::new(alloc));
    list.push(row)?;
    Ok(list)
}

/// Minimize 2x - y subject to 2x - 2y <= 3, with x and y from 0 to 4, where the costs and the row are in units of their decimals.
pub fn model(alloc: Global, costs: u8, row: u8) -> Result<IntModel, SampleError> {
    model_of(Parts {
        objective: name(alloc, "cost")?,
        cost_decimals: costs,
        constant: 7,
        columns: columns(alloc)?,
        rows: rows(alloc, row)?,
    })
}

/// Adds the cost and the bounds of each column to a list.
fn put_columns(list: &mut Vec<i64>, columns: &[Column]) -> Result<(), Memory> {
    for column in columns {
        list.push(column.cost)?;
        list.push(column.lo)?;
        list.push(column.hi)?;
    }
    Ok(())
}

/// Adds column numbers and coefficients to a list.
fn put_coefficients(list: &mut Vec<i64>, coefs: &[(u32, i64)]) -> Result<(), Memory> {
    for entry in coefs {
        list.push(i64::from(entry.0))?;
        list.push(entry.1)?;
    }
    Ok(())
}

/// Adds the sides, or 99 where there is none, and the coefficients of each row to a list.
fn put_rows(list: &mut Vec<i64>, rows: &[Row]) -> Result<(), Memory> {
    for row in rows {
        list.push(row.low.unwrap_or(99))?;
        list.push(row.high.unwrap_or(99))?;
        put_coefficients(list, row.coefs.as_slice())?;
    }
    Ok(())
}

/// The constant of a model, then the cost and the bounds of each column, then the sides and the coefficients of each row.
fn numbers(alloc: Global, model: &IntModel) -> Result<Vec<i64>, Memory> {
    let parts = model.parts();
    let mut list = Vec::new(alloc);
    list.push(parts.constant)?;
    put_columns(&mut list, parts.columns.as_slice())?;
    put_rows(&mut list, parts.rows.as_slice())?;
    Ok(list)
}

/// Whether an answer is a model of these numbers.
pub fn becomes<E>(alloc: Global, answer: Result<IntModel, E>, want: &[i64]) -> bool
where
    E: Drop,
{
    match answer {
        Ok(model) => match numbers(alloc, &model) {
            Ok(list) => list.as_slice() == want,
            Err(_) => false,
        },
        Err(_) => false,
    }
}

/// Whether an answer is this refusal.
pub fn is_refused<E>(answer: Result<IntModel, E>, refusal: E) -> bool
where
    E: Drop + PartialEq,
{
    match answer {
        Ok(_) => false,
        Err(error) => error == refusal,
    }
}
