//! The place of a datum: its column and its row, by name.

ghost use Rattle.std.specs.Prelude.{◌≡◌, ◌≤◌, ◌<◌, ◌^◌, IfSome, length};
ghost use Rattle.perturbation.specs.Edits.{at_side as at_side_of, column_named as column_named_of, located, located_in};
ghost use Rattle.perturbation.specs.Edits.{row_named as row_named_of};
ghost use Rattle.perturbation.specs.Internal.Places.{number_found};

use crate::edits::{Datum, PlaceError};
use ip_defs::{Column, Name, Row};
use ip_model::{IntModel, Place};

/// The index of the first column of a name.
fn column_named(columns: &[Column], name: &Name) -> Option<usize>
    ensures { result ≡ column_named_of columns.now name.now }
{
    columns
        .iter()
        .position(|column| column.name.as_str() == name.as_str())
}

/// The index of the first row of a name.
fn row_named(rows: &[Row], name: &Name) -> Option<usize>
    ensures { result ≡ row_named_of rows.now name.now }
{
    rows.iter()
        .position(|row| row.name.as_str() == name.as_str())
}

/// The number of the column or row that was found.
fn number(found: Option<usize>) -> Result<u32, PlaceError>
    requires { IfSome found (λ k. k < 2 ^ 32) }
    ensures { result ≡ number_found found }
{
    match found {
        Some(k) => Ok(k as u32),
        None => Err(PlaceError::UnknownName),
    }
}

/// A place of a row, where the row has that side.
fn at_side(place: Place, side: Option<i64>) -> Result<Place, PlaceError>
    ensures { result ≡ at_side_of place side }
{
    match side {
        Some(_) => Ok(place),
        None => Err(PlaceError::NoSide),
    }
}

/// The place of a datum among columns and rows.
pub fn place_in(columns: &[Column], rows: &[Row], datum: &Datum) -> Result<Place, PlaceError>
    requires columns { length columns.now ≤ 4096 }
    requires rows { length rows.now ≤ 1024 }
    ensures { result ≡ located_in columns.now rows.now datum.now }
{
    match datum {
        Datum::Cost { column } => Ok(Place::Cost(number(column_named(columns, column))?)),
        Datum::Lower { column } => Ok(Place::Lower(number(column_named(columns, column))?)),
        Datum::Upper { column } => Ok(Place::Upper(number(column_named(columns, column))?)),
        Datum::Low { row } => {
            let i = number(row_named(rows, row))?;
            at_side(Place::Low(i), rows[i as usize].low)
        }
        Datum::High { row } => {
            let i = number(row_named(rows, row))?;
            at_side(Place::High(i), rows[i as usize].high)
        }
        Datum::Coef { row, column } => {
            let i = number(row_named(rows, row))?;
            Ok(Place::Coef(i, number(column_named(columns, column))?))
        }
    }
}

/// The place of a datum, at the first column or row of its name. The errors are `UnknownName` where no column or row has the name, and
/// `NoSide` where the row lacks the named side. Allocates nothing.
pub fn locate(model: &IntModel, datum: &Datum) -> Result<Place, PlaceError>
    ensures { result ≡ located model.now datum.now }
{
    let parts = model.parts();
    place_in(parts.columns.as_slice(), parts.rows.as_slice(), datum)
}
