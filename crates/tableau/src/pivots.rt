//! The rows after a pivot, made one by one in spare lines.
ghost use Rattle.std.specs.Prelude.{◌≡◌, ◌≢◌, ◌<◌, ◌==◌, ◌&&◌, not, ℕ, if◌then◌else◌, length, OnOk, OnErr, Ok, Err, pos};
ghost use Rattle.frac128.specs.Fractions.{quotient_of};
ghost use Rattle.tableau.specs.Tables.{at, line as line_of, entry, is_zero_fraction, AreRows, AreSpareLines};
ghost use Rattle.tableau.specs.Pivots.{all_below, new_rows};
ghost use Rattle.tableau.specs.Internal.Changes.{is_changed, lessened_row, AreLessened, HasWideRow};

use crate::fractions::{is_zero, lessened};
use crate::lines::Line;
use frac128::{Frac, Wide, div};
use std::mem;

/// Each number of a row divided by the pivot, into a line of the same length.
fn divide_row(row: &[Frac], pivot: Frac, into: &mut Line) -> Result<(), Wide>
    requires pivot { pivot.num ≢ pos 0 }
    requires spare { length into.old ≡ length row.now }
    ensures spare { length into.new ≡ length into.old }
    ensures quotients { OnOk result (all_below (length row.now) (λ w. quotient_of (at row.now w) pivot) ≡ Ok into.new) }
    ensures wide { OnErr result (all_below (length row.now) (λ w. quotient_of (at row.now w) pivot) ≡ Err (record {})) }
{
    for w in 0..row.len() {
        match div(row[w], pivot) {
            Ok(quotient) => into.set(w, quotient),
            Err(Wide) => return Err(Wide),
        }
    }
    Ok(())
}

/// Each number of a row less a multiple of the new pivot row, into a line of the same length.
fn lessen_row(row: &[Frac], factor: Frac, quotients: &[Frac], into: &mut Line) -> Result<(), Wide>
    requires size { length quotients.now ≡ length row.now }
    requires spare { length into.old ≡ length row.now }
    ensures spare { length into.new ≡ length into.old }
    ensures lessened { OnOk result (lessened_row row.now factor quotients.now ≡ Ok into.new) }
    ensures wide { OnErr result (lessened_row row.now factor quotients.now ≡ Err (record {})) }
{
    for w in 0..row.len() {
        match lessened(row[w], factor, quotients[w]) {
            Ok(less) => into.set(w, less),
            Err(Wide) => return Err(Wide),
        }
    }
    Ok(())
}

/// Whether a pivot changes a row other than its own: its entry in the pivot column is not 0.
#[inline]
fn changes(line: &Line, i: usize, row: usize, var: usize) -> bool
    requires { var < length line.now }
    ensures { result ≡ (not (i == row) && not (is_zero_fraction (at line.now var))) }
{
    i != row && !is_zero(line.at(var))
}

/// The rows that a pivot changes, less their multiples of the new pivot row, into spare lines.
fn lessen_rows(
    rows: &[Line],
    row: usize,
    var: usize,
    quotients: &[Frac],
    spare: &mut [Line],
) -> Result<(), Wide>
    requires variable { var < length quotients.now }
    requires sizes { (i : ℕ) → i < length rows.now → length (line_of rows.now i) ≡ length quotients.now }
    requires lines { length spare.old ≡ length rows.now }
    requires spare { (i : ℕ) → i < length rows.now → length (line_of spare.old i) ≡ length quotients.now }
    ensures lines { length spare.new ≡ length spare.old }
    ensures spare { (i : ℕ) → i < length rows.now → length (line_of spare.new i) ≡ length quotients.now }
    ensures lessened { OnOk result (AreLessened rows.now row var quotients.now spare.new) }
    ensures wide { OnErr result (HasWideRow rows.now row var quotients.now) }
{
    for i in 0..rows.len() {
        let line = &rows[i];
        if changes(line, i, row, var) {
            let into = &mut spare[i];
            match lessen_row(line.as_slice(), line.at(var), quotients, into) {
                Ok(()) => {}
                Err(Wide) => return Err(Wide),
            }
        }
    }
    Ok(())
}

/// The rows that a pivot changes in exchange for their spare lines.
fn exchange_rows(rows: &mut [Line], row: usize, var: usize, spare: &mut [Line])
    requires lines { length spare.old ≡ length rows.old }
    requires sizes { (i : ℕ) → i < length rows.old → var < length (line_of rows.old i) }
    ensures count { length rows.new ≡ length rows.old }
    ensures lines { length spare.new ≡ length rows.old }
    ensures rows { (i : ℕ) → i < length rows.old → line_of rows.new i
        ≡ (if is_changed rows.old row var i then line_of spare.old i else line_of rows.old i) }
    ensures spare { (i : ℕ) → i < length rows.old → line_of spare.new i
        ≡ (if is_changed rows.old row var i then line_of rows.old i else line_of spare.old i) }
{
    for i in 0..rows.len() {
        if changes(&rows[i], i, row, var) {
            mem::swap(&mut rows[i], &mut spare[i]);
        }
    }
}

/// The rows after a pivot. All steps are tried before the first row is changed. The spare lines and the line of quotients hold the new
/// rows until the exchange, and the old ones after it.
pub fn pivot_rows(
    rows: &mut [Line],
    row: usize,
    var: usize,
    spare: &mut [Line],
    quotients: &mut Line,
) -> Result<(), Wide>
    requires row { row < length rows.old }
    requires variable { var < length quotients.old }
    requires pivot { (entry rows.old row var).num ≢ pos 0 }
    requires rows { AreRows (length quotients.old) rows.old }
    requires spare { AreSpareLines (length rows.old) (length quotients.old) spare.old quotients.old }
    ensures pivoted { OnOk result (new_rows (length quotients.old) rows.old row var ≡ Ok rows.new) }
    ensures wide { OnErr result (new_rows (length quotients.old) rows.old row var ≡ Err (record {})) }
    ensures kept { OnErr result (rows.new ≡ rows.old) }
    ensures spare { AreSpareLines (length rows.new) (length quotients.old) spare.new quotients.new }
{
    let line = &rows[row];
    match divide_row(line.as_slice(), line.at(var), quotients) {
        Ok(()) => {}
        Err(Wide) => return Err(Wide),
    }
    match lessen_rows(rows, row, var, quotients.as_slice(), spare) {
        Ok(()) => {}
        Err(Wide) => return Err(Wide),
    }
    exchange_rows(rows, row, var, spare);
    mem::swap(&mut rows[row], quotients);
    Ok(())
}
