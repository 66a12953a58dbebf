//! Larger models, made by formulas.
ghost use Rattle.std.specs.Prelude.{◌<◌};

use crate::SampleError;
use crate::builders::{column, model, model_of, parts, row};
use ip_defs::{Column, Row};
use ip_model::IntModel;
use std::alloc::{AllocError, Global};

/// A number of columns without costs from 0 to 2^24, each of which a search without linear programs halves 25 times, and one column
/// from 0 to 1 of cost -1.
pub fn wide_columns(alloc: Global, count: u32) -> Result<IntModel, SampleError> {
    let mut columns = Vec::new(alloc);
    for _ in 0..count {
        columns.push(column(alloc, 0, 0, 1 << 24))?;
    }
    columns.push(column(alloc, -1, 0, 1))?;
    model(alloc, columns, Vec::new(alloc))
}

/// Coefficients of 2^40 in the first `count` columns.
fn greatest_coefficients(alloc: Global, count: u32) -> Result<Vec<(u32, i64)>, AllocError> {
    let mut coefs = Vec::with_capacity(alloc, count as usize)?;
    for j in 0..count {
        coefs.push((j, 1 << 40))?;
    }
    Ok(coefs)
}

/// The model that is at every limit: 4,096 columns of cost -2^40 from -2^24 to 2^24, and 1,024 rows with 200,000 coefficients of 2^40,
/// a low side of 2^62 and no high side. The first 320 rows have coefficients in the first 196 columns, and the others in the first
/// 195. The constant is 2^62.
pub fn at_every_limit(alloc: Global) -> Result<IntModel, SampleError> {
    let mut columns = Vec::with_capacity(alloc, 4096)?;
    for _ in 0..4096 {
        columns.push(column(alloc, -(1 << 40), -(1 << 24), 1 << 24))?;
    }
    let mut rows = Vec::with_capacity(alloc, 1024)?;
    for i in 0..1024 {
        let coefs = greatest_coefficients(alloc, if i < 320 { 196 } else { 195 })?;
        rows.push(row(alloc, coefs.as_slice(), Some(1 << 62), None)?)?;
    }
    model_of(parts(alloc, 1 << 62, columns, rows))
}

/// Columns with costs from -50 to 50 and upper bounds from 0 to 9.
fn block_columns(alloc: Global) -> Result<Vec<Column>, AllocError> {
    let mut columns = Vec::with_capacity(alloc, 1000)?;
    for j in 0u32..1000 {
        let cost = i64::from(j * 37 % 101) - 50;
        columns.push(column(alloc, cost, 0, i64::from(j % 10)))?;
    }
    Ok(columns)
}

/// A row with one positive coefficient in each block of 20 columns, and two sides.
fn block_row(alloc: Global, i: u32) -> Result<Row, SampleError>
    requires { i < 200 }
{
    let mut coefs = Vec::with_capacity(alloc, 50)?;
    for k in 0..50 {
        let column = k * 20 + (i * 7 + k * 3) % 20;
        coefs.push((column, i64::from((i * 31 + k * 17) % 99) + 1))?;
    }
    let low = i64::from(i * 13 % 1000);
    let high = i64::from(i * 29 % 1000) + 1000;
    Ok(row(alloc, coefs.as_slice(), Some(low), Some(high))?)
}

/// 1,000 columns and 200 rows of 50 coefficients each, one in each block of 20 columns. The constant is 7.
pub fn block_model(alloc: Global) -> Result<IntModel, SampleError> {
    let mut rows = Vec::with_capacity(alloc, 200)?;
    for i in 0..200 {
        rows.push(block_row(alloc, i)?)?;
    }
    model_of(parts(alloc, 7, block_columns(alloc)?, rows))
}

/// The coefficient of a row and a column: 1 where their numbers are equal, else a number from -3 to 3.
fn dense_coefficient(i: u32, j: u32) -> i64
    requires row { i < 133 }
    requires column { j < 201 }
{
    if i == j {
        1
    } else {
        i64::from((i * 31 + j * 17) % 7) - 3
    }
}

/// A row with a coefficient in most columns, from 0 to 100.
fn dense_row(alloc: Global, i: u32) -> Result<Row, SampleError>
    requires { i < 133 }
{
    let mut coefs = Vec::with_capacity(alloc, 201)?;
    for j in 0..201 {
        let number = dense_coefficient(i, j);
        if number != 0 {
            coefs.push((j, number))?;
        }
    }
    Ok(row(alloc, coefs.as_slice(), Some(0), Some(100))?)
}

/// 201 columns from 0 to 10 and 133 rows from 0 to 100 that have a coefficient in most columns.
pub fn dense_model(alloc: Global) -> Result<IntModel, SampleError> {
    let mut columns = Vec::with_capacity(alloc, 201)?;
    for j in 0..201 {
        columns.push(column(alloc, j % 9 - 4, 0, 10))?;
    }
    let mut rows = Vec::with_capacity(alloc, 133)?;
    for i in 0..133 {
        rows.push(dense_row(alloc, i)?)?;
    }
    model(alloc, columns, rows)
}
