//! Programs copied, and models made of them.

ghost use Rattle.std.specs.Prelude.{◌≡◌, IfOk, Some};
ghost use Rattle.ip_defs.specs.Limits.{IsWithinLimits};

use ip_defs::{Coefs, Column, ColumnList, Memory, Name, Parts, Row, RowList};
use ip_model::{IntModel, make};
use std::alloc::Global;

/// A copy of a name.
pub fn copied_name(alloc: Global, name: &Name) -> Result<Name, Memory>
    ensures { IfOk result (λ n. n ≡ name.now) }
{
    Ok(Name::new(String::from_str(alloc, name.as_str())?))
}

/// A copy of a column.
fn copied_column(alloc: Global, column: &Column) -> Result<Column, Memory>
    ensures { IfOk result (λ c. c ≡ column.now) }
{
    Ok(Column {
        name: copied_name(alloc, &column.name)?,
        cost: column.cost,
        lo: column.lo,
        hi: column.hi,
    })
}

/// A copy of a row.
fn copied_row(alloc: Global, row: &Row) -> Result<Row, Memory>
    ensures { IfOk result (λ r. r ≡ row.now) }
{
    Ok(Row {
        name: copied_name(alloc, &row.name)?,
        decimals: row.decimals,
        coefs: Coefs::from_vec(Vec::from_slice(alloc, row.coefs.as_slice())?),
        low: row.low,
        high: row.high,
    })
}

/// Copies of columns.
fn copied_columns(alloc: Global, columns: &[Column]) -> Result<ColumnList, Memory>
    ensures { IfOk result (λ cs. cs ≡ columns.now) }
{
    let mut copies = ColumnList::from_vec(Vec::new(alloc));
    for column in columns {
        let copy = copied_column(alloc, column)?;
        copies.push(copy)?;
    }
    Ok(copies)
}

/// Copies of rows.
pub fn copied_rows(alloc: Global, rows: &[Row]) -> Result<RowList, Memory>
    ensures { IfOk result (λ rs. rs ≡ rows.now) }
{
    let mut copies = RowList::from_vec(Vec::new(alloc));
    for row in rows {
        let copy = copied_row(alloc, row)?;
        copies.push(copy)?;
    }
    Ok(copies)
}

/// A copy of a program.
pub fn copied(alloc: Global, parts: &Parts) -> Result<Parts, Memory>
    ensures { IfOk result (λ m. m ≡ parts.now) }
{
    Ok(Parts {
        objective: copied_name(alloc, &parts.objective)?,
        cost_decimals: parts.cost_decimals,
        constant: parts.constant,
        columns: copied_columns(alloc, parts.columns.as_slice())?,
        rows: copied_rows(alloc, parts.rows.as_slice())?,
    })
}

/// The model of a program that is within its limits, so that the answer is never `None`.
pub fn made(parts: Parts) -> Option<IntModel>
    requires { IsWithinLimits parts }
    ensures { result ≡ Some parts }
{
    match make(parts) {
        Ok(model) => Some(model),
        Err(_) => None,
    }
}
