//! The first breach of a point: a column whose bounds or a row whose sides it violates.
ghost use Rattle.std.specs.Prelude.{◌≡◌, ◌^◌, ◌≤◌, ◌↔◌, ◌||◌, if◌then◌else◌, IsNone, length, slice_get};
ghost use Rattle.std.specs.Int.Signed.{lt_z};
ghost use Rattle.ip_defs.specs.Lists.{first};
ghost use Rattle.ip_defs.specs.Limits.{AreOrdered, AreSmall, IsRow, IsRowShaped, IsWithinLimits};
ghost use Rattle.ip_defs.specs.Program.{IsFeasible, box_of, row_sum};
ghost use Rattle.ip_defs.specs.Breaches.{column_breach, is_below_side, is_above_side, row_breach, first_breach as first_breach_of};

use crate::models::IntModel;
use crate::terms::{term, total_of};
use ip_defs::{Breach, Column, Parts, Point, Row};

/// The value of a row at a point, from its coefficients alone. With at most 4,096 columns its absolute value stays below 2^115.
fn row_value(coefs: &[(u32, i64)], point: &[i64]) -> i128
    requires ordered { AreOrdered (length point.now) coefs.now }
    requires small { AreSmall (2 ^ 40) coefs.now }
    requires size { length point.now ≤ 4096 }
    ensures { result ≡ row_sum coefs.now point.now }
{
    let mut total = 0;
    for (column, coefficient) in coefs {
        total = total_of(total, term(*coefficient, point[*column as usize]));
    }
    total
}

/// Whether a value is below a side that exists.
fn is_below(value: i128, side: Option<i64>) -> bool
    ensures { result ≡ is_below_side value side }
{
    match side {
        Some(side) => value < i128::from(side),
        None => false,
    }
}

/// Whether a value is above a side that exists.
fn is_above(value: i128, side: Option<i64>) -> bool
    ensures { result ≡ is_above_side value side }
{
    match side {
        Some(side) => i128::from(side) < value,
        None => false,
    }
}

/// The breach of a column by a coordinate outside its bounds.
fn breach_of_column(column: &Column, index: u32, coordinate: i64) -> Option<Breach>
    ensures { result ≡ (if lt_z coordinate column.now.lo || lt_z column.now.hi coordinate then Some (Breach.Column index) else None) }
{
    if coordinate < column.lo || column.hi < coordinate {
        Some(Breach::Column(index))
    } else {
        None
    }
}

/// The breach of a row by a point at which its value lies outside its sides.
fn breach_of_row(row: &Row, index: u32, point: &[i64]) -> Option<Breach>
    requires shape { IsRowShaped (length point.now) row.now }
    requires limits { IsRow row.now }
    requires size { length point.now ≤ 4096 }
    ensures { result ≡ row_breach point.now index (Some row.now) }
{
    let value = row_value(row.coefs.as_slice(), point);
    if is_below(value, row.low) || is_above(value, row.high) {
        Some(Breach::Row(index))
    } else {
        None
    }
}

/// The first column whose bounds a point violates.
fn first_column(parts: &Parts, point: &[i64]) -> Option<Breach>
    requires limits { IsWithinLimits parts.now }
    requires size { length point.now ≡ length parts.now.columns }
    ensures { result ≡ first (column_breach (box_of parts.now) point.now) (length parts.now.columns) }
{
    for (j, column) in parts.columns.as_slice().iter().enumerate() {
        if let Some(breach) = breach_of_column(column, j as u32, point[j]) {
            return Some(breach);
        }
    }
    None
}

/// The first row whose sides a point violates.
fn first_row(parts: &Parts, point: &[i64]) -> Option<Breach>
    requires limits { IsWithinLimits parts.now }
    requires size { length point.now ≡ length parts.now.columns }
    ensures { result ≡ first (λ i. row_breach point.now i (slice_get parts.now.rows i)) (length parts.now.rows) }
{
    for (i, row) in parts.rows.as_slice().iter().enumerate() {
        if let Some(breach) = breach_of_row(row, i as u32, point) {
            return Some(breach);
        }
    }
    None
}

/// The first column with a breach, else the first row with one.
fn breach_at(parts: &Parts, point: &[i64]) -> Option<Breach>
    requires limits { IsWithinLimits parts.now }
    requires size { length point.now ≡ length parts.now.columns }
    ensures { result ≡ first_breach_of parts.now point.now }
{
    match first_column(parts, point) {
        Some(breach) => Some(breach),
        None => first_row(parts, point),
    }
}

/// The first breach of a point with one coordinate for each column: columns before rows, each by number. None is the answer exactly
/// where the point is feasible.
pub fn first_breach(model: &IntModel, point: &Point) -> Option<Breach>
    requires { length point.now ≡ length model.now.columns }
    ensures breach { result ≡ first_breach_of model.now point.now }
    ensures feasible { IsNone result ↔ IsFeasible model.now point.now }
{
    breach_at(model.parts(), point.as_slice())
}
