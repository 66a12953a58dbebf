//! One number of a program: reading it, and putting another in its place.

ghost use Rattle.std.specs.Prelude.{◌≡◌, ◌<◌, ◌≤◌, ℕ, IfErr, IfOk, OnOk, length, option_map};
ghost use Rattle.ip_defs.specs.Limits.{AreOrdered, IsWithinLimits};
ghost use Rattle.ip_defs.specs.Program.{coefficient};
ghost use Rattle.ip_model.specs.Places.{Exists, changed, changed_at, changed_coefs, number_of, or_zero as or_zero_of};
ghost use Rattle.perturbation.specs.Internal.Coefs.{columns_before, place_in as place_in_of};
ghost use Rattle.perturbation.specs.Internal.Places.{column_changed, row_changed};

use ip_defs::{Coefs, Column, ColumnList, Memory, Parts, Row, RowList};
use ip_model::Place;
use std::alloc::Global;
use std::mem;

/// The index of the first coefficient whose column is not before this one; the count of coefficients where there is none.
fn index_of(coefs: &[(u32, i64)], column: u32) -> usize
    ensures index { result ≡ columns_before column coefs.now }
    ensures within { result ≤ length coefs.now }
{
    for (k, entry) in coefs.iter().enumerate() {
        if entry.0 >= column {
            return k;
        }
    }
    coefs.len()
}

/// The index at which the coefficient of a column is listed, or as an error that at which it would be.
fn find(coefs: &[(u32, i64)], column: u32) -> Result<usize, usize>
    ensures place { result ≡ place_in_of column coefs.now }
    ensures listed { IfOk result (λ k. k < length coefs.now) }
    ensures within { IfErr result (λ k. k ≤ length coefs.now) }
{
    let k = index_of(coefs, column);
    match coefs.get(k) {
        Some(entry) => if entry.0 == column { Ok(k) } else { Err(k) },
        None => Err(k),
    }
}

/// The coefficient of a column, 0 where none is listed.
fn coefficient_at(coefs: &[(u32, i64)], column: u32) -> i64
    ensures { (n : ℕ) → AreOrdered n coefs.now → result ≡ coefficient coefs.now column }
{
    match find(coefs, column) {
        Ok(k) => coefs[k].1,
        Err(_) => 0,
    }
}

/// A side, 0 where it is absent.
fn or_zero(side: Option<i64>) -> i64
    ensures { result ≡ or_zero_of side }
{
    side.unwrap_or(0)
}

/// The number at a place that exists.
pub fn number_at(parts: &Parts, place: Place) -> i64
    requires limits { IsWithinLimits parts.now }
    requires exists { Exists parts.now place }
    ensures { result ≡ number_of parts.now place }
{
    let columns = parts.columns.as_slice();
    let rows = parts.rows.as_slice();
    match place {
        Place::Cost(j) => columns[j as usize].cost,
        Place::Low(i) => or_zero(rows[i as usize].low),
        Place::High(i) => or_zero(rows[i as usize].high),
        Place::Coef(i, j) => coefficient_at(rows[i as usize].coefs.as_slice(), j),
        Place::Lower(j) => columns[j as usize].lo,
        Place::Upper(j) => columns[j as usize].hi,
    }
}

/// Puts another number at a place of a column.
fn set_number(column: &mut Column, place: Place, value: i64)
    ensures { column.new ≡ column_changed place (λ old. value) column.old }
{
    match place {
        Place::Cost(_) => column.cost = value,
        Place::Lower(_) => column.lo = value,
        Place::Upper(_) => column.hi = value,
        Place::Low(_) | Place::High(_) | Place::Coef(_, _) => {}
    }
}

/// Columns with another number at a place of one.
fn with_number(columns: ColumnList, j: usize, place: Place, value: i64) -> ColumnList
    requires { j < length columns }
    ensures { result ≡ changed_at (column_changed place (λ old. value)) j columns }
{
    let mut items = columns.into_vec();
    set_number(&mut items[j], place, value);
    ColumnList::from_vec(items)
}

/// Another side in place of one that is there.
fn other_side(old: Option<i64>, side: i64) -> Option<i64>
    ensures { result ≡ option_map (λ z. side) old }
{
    match old {
        Some(_) => Some(side),
        None => None,
    }
}

/// Puts another coefficient of a column in its place. One that becomes 0 leaves the list, and one that was 0 comes into the list in the
/// order of columns. If there is no memory for it, nothing is said of the list.
fn put_coefficient(coefs: &mut Vec<(u32, i64)>, column: u32, value: i64) -> Result<(), Memory>
    ensures { OnOk result (coefs.new.items ≡ changed_coefs column (λ old. value) coefs.old.items) }
{
    match (find(coefs.as_slice(), column), value == 0) {
        (Ok(k), true) => {
            coefs.remove(k);
            Ok(())
        }
        (Ok(k), false) => {
            coefs[k] = (column, value);
            Ok(())
        }
        (Err(_), true) => Ok(()),
        (Err(k), false) => {
            coefs.insert(k, (column, value))?;
            Ok(())
        }
    }
}

/// Coefficients with another one of a column.
fn with_coefficient(coefs: Coefs, column: u32, value: i64) -> Result<Coefs, Memory>
    ensures { IfOk result (λ r. r ≡ changed_coefs column (λ old. value) coefs) }
{
    let mut items = coefs.into_vec();
    put_coefficient(&mut items, column, value)?;
    Ok(Coefs::from_vec(items))
}

/// Puts another number at a place of a row; a side only where the row has it. If there is no memory for it, nothing is said of the row.
fn set_row_number(alloc: Global, row: &mut Row, place: Place, value: i64) -> Result<(), Memory>
    ensures { OnOk result (row.new ≡ row_changed place (λ old. value) row.old) }
{
    match place {
        Place::Low(_) => row.low = other_side(row.low, value),
        Place::High(_) => row.high = other_side(row.high, value),
        Place::Coef(_, j) => {
            let coefs = mem::replace(&mut row.coefs, Coefs::from_vec(Vec::new(alloc)));
            row.coefs = with_coefficient(coefs, j, value)?;
        }
        Place::Cost(_) | Place::Lower(_) | Place::Upper(_) => {}
    }
    Ok(())
}

/// Rows with another number at a place of one.
fn with_row_number(
    alloc: Global,
    rows: RowList,
    i: usize,
    place: Place,
    value: i64,
) -> Result<RowList, Memory>
    requires { i < length rows }
    ensures { IfOk result (λ r. r ≡ changed_at (row_changed place (λ old. value)) i rows) }
{
    let mut items = rows.into_vec();
    set_row_number(alloc, &mut items[i], place, value)?;
    Ok(RowList::from_vec(items))
}

/// The program with another number at a place that exists.
pub fn replaced(alloc: Global, parts: Parts, place: Place, value: i64) -> Result<Parts, Memory>
    requires exists { Exists parts place }
    ensures { IfOk result (λ m. m ≡ changed parts place (λ old. value)) }
{
    match place {
        Place::Cost(j) | Place::Lower(j) | Place::Upper(j) => Ok(Parts {
            columns: with_number(parts.columns, j as usize, place, value),
            ..parts
        }),
        Place::Low(i) | Place::High(i) | Place::Coef(i, _) => Ok(Parts {
            rows: with_row_number(alloc, parts.rows, i as usize, place, value)?,
            ..parts
        }),
    }
}
