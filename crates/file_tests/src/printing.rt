//! Names and rows that can be printed, or not; made by hand, since a file that is read has no row whose sides cross.

use ip_defs::{Coefs, Column, ColumnList, Memory, Name, Parts, Row, RowList};
use mps_printer::printable;
use sample_models::{SampleError, model_of};
use std::alloc::{Alloc, Global};

fn named(alloc: Global, name: &str) -> Result<Name, Memory> {
    Ok(Name::new(String::from_str(alloc, name)?))
}

/// A column of this name from -3 to 4.
fn columns(alloc: Global, name: &str) -> Result<ColumnList, Memory> {
    let column = Column {
        name: named(alloc, name)?,
        cost: -250,
        lo: -3,
        hi: 4,
    };
    Ok(ColumnList::from_vec(vec![in alloc; column]?))
}

/// A row with these sides, in which the column has a coefficient of one tenth.
fn rows(alloc: Global, low: i64, high: i64) -> Result<RowList, Memory> {
    let row = Row {
        name: named(alloc, "r")?,
        decimals: 1,
        coefs: Coefs::from_vec(vec![in alloc; (0, 1)]?),
        low: Some(low),
        high: Some(high),
    };
    Ok(RowList::from_vec(vec![in alloc; row]?))
}

/// A program of a column of this name and a row with these sides. Costs and constant have two decimals.
fn parts(alloc: Global, name: &str, low: i64, high: i64) -> Result<Parts, Memory> {
    Ok(Parts {
        objective: named(alloc, "gain")?,
        cost_decimals: 2,
        constant: -105,
        columns: columns(alloc, name)?,
        rows: rows(alloc, low, high)?,
    })
}

/// Whether the model of those parts can be printed.
fn is_printable(alloc: Global, name: &str, low: i64, high: i64) -> Result<bool, SampleError> {
    let model = model_of(parts(alloc, name, low, high)?)?;
    Ok(printable(&model))
}

#[test]
fn names_and_rows_are_printable(rt: HostRuntime) {
    for (name, low, high, wanted) in [
        ("é", 1, 1, true),
        ("y", 2, 1, false),
        ("'MARKER'", 1, 1, false),
        ("a\rb", 1, 1, false),
    ] {
        assert!(rt;
            is_printable(rt.alloc(), name, low, high) == Ok(wanted),
            "{name}"
        );
    }
}
