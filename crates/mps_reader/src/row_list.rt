//! The rows of the model of a draft: the table of row sides.

ghost use Rattle.std.specs.Prelude.{◌≡◌, ◌<◌, ◌≤◌, IfOk, length, map, slice_get, string_bytes, unsigned_abs, unwrap_or, pos};
ghost use Rattle.std.specs.Option.{ForSome};
ghost use Rattle.decimals.specs.Decimals.{IsBelowLarge};
ghost use Rattle.mps_defs.specs.Numbers.{is_large as is_large_of};
ghost use Rattle.mps_defs.specs.TextModels.{is_open as is_open_of, no_number, plain_sides as plain_sides_of, range_sides};
ghost use Rattle.mps_defs.specs.TextModels.{row_sides as row_sides_of};
ghost use Rattle.mps_reader.specs.Internal.Below.{AreBelowLarge, AreRowsBelow, AreWithin, IsRowBelow};
ghost use Rattle.mps_reader.specs.Internal.Clamps.{clamped_coefs, clamped_row, clamped_sides};
ghost use Rattle.mps_reader.specs.Internal.Drafted.{drafted_coefs, drafted_decimals, drafted_row, drafted_rows};
ghost use Rattle.mps_reader.specs.Internal.Progress.{kind_word};

use crate::clamps::{clamped, clamped_above, clamped_below};
use crate::draft::{RowDraft, RowKind};
use decimals::units;
use ip_defs::{Listed, Name, Row};
use mps_defs::{How, Number};
use std::alloc::{AllocError, Global};

/// A name of a model.
pub fn name_of(alloc: Global, text: &str) -> Result<Name, AllocError>
    ensures { IfOk result (λ name. name ≡ text.now) }
{
    Ok(Name::new(String::from_str(alloc, text)?))
}

/// The decimals of a row.
pub fn decimals_of(row: &RowDraft, how: How) -> u8
    requires { row.now.decimals ≤ 9 }
    ensures { result ≡ drafted_decimals how row.now }
{
    how.digits.max(row.decimals as u8)
}

/// Whether a number is Large.
fn is_large(number: Number) -> bool
    ensures { result ≡ is_large_of number }
{
    match number {
        Number::Dec { .. } => false,
        Number::Large { .. } => true,
    }
}

/// The number of a column in 32 bits.
fn column_number(column: usize) -> u32
    requires { column < 4096 }
    ensures { result ≡ column }
{
    column as u32
}

/// The entries of a row that are not 0, in units.
fn coefs_of(
    alloc: Global,
    entries: &[(usize, Number)],
    decimals: u8,
) -> Result<Vec<(u32, i64)>, AllocError>
    requires decimals { decimals ≤ 9 }
    requires below { AreBelowLarge entries.now }
    requires columns { AreWithin 4096 entries.now }
    ensures { IfOk result (λ v. v.items ≡ clamped_coefs (drafted_coefs decimals entries.now)) }
{
    let mut coefs = Vec::new(alloc);
    for entry in entries {
        let coefficient = clamped(units(entry.1, decimals));
        if coefficient != 0 {
            coefs.push((column_number(entry.0), coefficient))?;
        }
    }
    Ok(coefs)
}

/// The sides of a row, the lower one first.
type Sides = (Option<i64>, Option<i64>);

/// The sides of a row without a range.
fn plain_sides(kind: RowKind, value: i128) -> Sides
    ensures { result ≡ clamped_sides (plain_sides_of (kind_word kind) value) }
{
    let side = Some(clamped(value));
    match kind {
        RowKind::AtMost => (None, side),
        RowKind::AtLeast => (side, None),
        RowKind::Free | RowKind::Equal => (side, side),
    }
}

/// The sides of a row with a range, where a range that is not finite makes no side.
fn ranged_sides(kind: RowKind, value: i128, finite: bool, range: i128) -> Sides
    ensures { result ≡ clamped_sides (range_sides (kind_word kind) value finite range (unsigned_abs range)) }
{
    let side = Some(clamped(value));
    let below = if finite {
        Some(clamped_below(value, range))
    } else {
        None
    };
    let above = if finite {
        Some(clamped_above(value, range))
    } else {
        None
    };
    match kind {
        RowKind::AtMost => (below, side),
        RowKind::AtLeast => (side, above),
        RowKind::Free | RowKind::Equal => if range > 0 {
            (side, above)
        } else if range < 0 {
            (below, side)
        } else {
            (side, side)
        },
    }
}

/// Whether a Large right side leaves a row without sides.
fn is_open(kind: RowKind, right_side: Number) -> bool
    ensures { result ≡ is_open_of (kind_word kind) right_side }
{
    match (kind, right_side) {
        (RowKind::AtMost, Number::Large { negative }) => !negative,
        (RowKind::AtLeast, Number::Large { negative }) => negative,
        _ => false,
    }
}

/// The sides of a row by its kind, its right side and its range. A Large right side that leaves a side exceeds the limit.
fn row_sides(kind: RowKind, decimals: u8, right_side: Number, range: Option<Number>) -> Sides
    requires decimals { decimals ≤ 9 }
    requires right_side { IsBelowLarge right_side }
    requires range { ForSome range IsBelowLarge }
    ensures { result ≡ clamped_sides (row_sides_of (kind_word kind) decimals right_side range) }
{
    let value = units(right_side, decimals);
    if is_large(right_side) {
        if range.is_none() && is_open(kind, right_side) {
            return (None, None);
        }
        let side = Some(clamped(value));
        return (side, side);
    }
    match range {
        None => plain_sides(kind, value),
        Some(range) => ranged_sides(kind, value, !is_large(range), units(range, decimals)),
    }
}

/// 0, as a number of a text.
pub const NO_NUMBER: Number = Number::Dec {
    units: 0,
    decimals: 0,
};

/// A row of the model.
fn row_of(alloc: Global, name: &str, row: &RowDraft, how: How) -> Result<Row, AllocError>
    requires digits { how.digits ≤ 9 }
    requires below { IsRowBelow row.now }
    ensures { IfOk result (λ r. r ≡ clamped_row (drafted_row how name.now row.now)) }
{
    let decimals = decimals_of(row, how);
    let coefs = coefs_of(alloc, row.entries.as_slice(), decimals)?;
    let (low, high) = row_sides(
        row.kind,
        decimals,
        row.right_side.unwrap_or(NO_NUMBER),
        row.range,
    );
    Ok(Row {
        name: name_of(alloc, name)?,
        decimals,
        coefs: Listed::from_vec(coefs),
        low,
        high,
    })
}

/// The rows of the model: those that are not free.
pub fn row_list(
    alloc: Global,
    names: &[String],
    rows: &[RowDraft],
    how: How,
) -> Result<Vec<Row>, AllocError>
    requires digits { how.digits ≤ 9 }
    requires below { AreRowsBelow rows.now }
    requires names { length names.now ≡ length rows.now }
    ensures { IfOk result (λ v. v.items ≡ map clamped_row (drafted_rows how (map string_bytes names.now) rows.now)) }
{
    let mut list = Vec::new(alloc);
    for (i, row) in rows.iter().enumerate() {
        let name = names[i].as_str();
        if !row.kind.is_free() {
            list.push(row_of(alloc, name, row, how)?)?;
        }
    }
    Ok(list)
}
