//! Whether the rows lie within their sides at a point, and stand at the sides that multipliers pay.
ghost use Rattle.std.specs.Prelude.{◌≡◌, ◌^◌, ◌<◌, ◌≤◌, ◌↔◌, ℕ, IfSome, IsTrue, Some, slice_get, length, ◌*ℤ◌, ◌≤ℤ◌};
ghost use Rattle.std.specs.Int.RustNames.{unsigned_abs};
ghost use Rattle.ip_defs.specs.Program.{row_sum};
ghost use Rattle.ip_defs.specs.Certificates.{side_for};
ghost use Rattle.ip_defs.specs.Limits.{AreOrdered, AreSmall, IsRowShaped, IsWithinLimits};
ghost use Rattle.leaf_cert.specs.Columns.{AllSmall};
ghost use Rattle.slackness.specs.Tight.{IsWithinSides, StandsAt, AreWithinSides, ArePaidRows, activity};

use crate::products::{scaled, term};
use ip_defs::{Parts, Row};
use ip_model::total_of;
use leaf_cert::side_of;

/// The value of a row at a point, from its coefficients alone. With at most 4,096 columns its absolute value is at most 2^126.
fn row_value(coefs: &[(u32, i64)], point: &[i128]) -> i128
    requires ordered { AreOrdered (length point.now) coefs.now }
    requires coefs_small { AreSmall (2 ^ 40) coefs.now }
    requires point_small { AllSmall (2 ^ 74) point.now }
    requires size { length point.now ≤ 4096 }
    ensures { result ≡ row_sum coefs.now point.now }
{
    let mut total = 0;
    for (column, coefficient) in coefs {
        total = total_of(total, term(*coefficient, point[*column as usize]));
    }
    total
}

/// Whether a value is at least a side times the denominator, where there is one.
fn is_at_least(denominator: i128, side: Option<i64>, value: i128) -> bool
    requires { unsigned_abs denominator ≤ 2 ^ 50 }
    ensures { IsTrue result ↔ IfSome side (λ s. (denominator *ℤ s) ≤ℤ value) }
{
    match side {
        Some(side) => scaled(denominator, side) <= value,
        None => true,
    }
}

/// Whether a value is at most a side times the denominator, where there is one.
fn is_at_most(denominator: i128, side: Option<i64>, value: i128) -> bool
    requires { unsigned_abs denominator ≤ 2 ^ 50 }
    ensures { IsTrue result ↔ IfSome side (λ s. value ≤ℤ (denominator *ℤ s)) }
{
    match side {
        Some(side) => value <= scaled(denominator, side),
        None => true,
    }
}

/// Whether a value lies between two sides times the denominator, where they are there.
fn is_within(denominator: i128, low: Option<i64>, high: Option<i64>, value: i128) -> bool
    requires { unsigned_abs denominator ≤ 2 ^ 50 }
    ensures { IsTrue result ↔ IsWithinSides denominator low high value }
{
    is_at_least(denominator, low, value) && is_at_most(denominator, high, value)
}

/// Whether each row's value lies between its sides.
fn are_within(parts: &Parts, denominator: i128, point: &[i128]) -> bool
    requires limits { IsWithinLimits parts.now }
    requires denominator_small { unsigned_abs denominator ≤ 2 ^ 50 }
    requires point_small { AllSmall (2 ^ 74) point.now }
    requires size { length point.now ≡ length parts.now.columns }
    ensures { IsTrue result ↔ AreWithinSides parts.now denominator point.now }
{
    for row in parts.rows.as_slice() {
        let value = row_value(row.coefs.as_slice(), point);
        if !is_within(denominator, row.low, row.high, value) {
            return false;
        }
    }
    true
}

/// Whether a row has the side that a multiplier pays, and a value is that side times the denominator.
fn stands(row: &Row, multiplier: i64, denominator: i128, value: i128) -> bool
    requires { unsigned_abs denominator ≤ 2 ^ 50 }
    ensures { IsTrue result ↔ StandsAt denominator multiplier (Some row.now) value }
{
    match side_of(multiplier, row) {
        Some(side) => scaled(denominator, side) == value,
        None => false,
    }
}

/// Whether a row has the side that a multiplier pays, and its value at a point is that side times the denominator.
fn stands_at(parts: &Parts, row: u32, multiplier: i64, denominator: i128, point: &[i128]) -> bool
    requires limits { IsWithinLimits parts.now }
    requires within { row < length parts.now.rows }
    requires denominator_small { unsigned_abs denominator ≤ 2 ^ 50 }
    requires point_small { AllSmall (2 ^ 74) point.now }
    requires size { length point.now ≡ length parts.now.columns }
    ensures { IsTrue result ↔ StandsAt denominator multiplier (slice_get parts.now.rows row) (activity parts.now.rows point.now row) }
{
    let rows = parts.rows.as_slice();
    let row = &rows[row as usize];
    let value = row_value(row.coefs.as_slice(), point);
    stands(row, multiplier, denominator, value)
}

/// Whether each row with a multiplier stands at the side that it pays.
fn are_paid(parts: &Parts, y: &[(u32, i64)], denominator: i128, point: &[i128]) -> bool
    requires limits { IsWithinLimits parts.now }
    requires ordered { AreOrdered (length parts.now.rows) y.now }
    requires denominator_small { unsigned_abs denominator ≤ 2 ^ 50 }
    requires point_small { AllSmall (2 ^ 74) point.now }
    requires size { length point.now ≡ length parts.now.columns }
    ensures { IsTrue result ↔ ArePaidRows parts.now denominator point.now y.now }
{
    for (row, multiplier) in y {
        if !stands_at(parts, *row, *multiplier, denominator, point) {
            return false;
        }
    }
    true
}

/// Whether each row's value lies between its sides, and each row with a multiplier stands at the side that it pays.
pub fn are_within_and_paid(
    parts: &Parts,
    y: &[(u32, i64)],
    denominator: i128,
    point: &[i128],
) -> bool
    requires limits { IsWithinLimits parts.now }
    requires ordered { AreOrdered (length parts.now.rows) y.now }
    requires denominator_small { unsigned_abs denominator ≤ 2 ^ 50 }
    requires point_small { AllSmall (2 ^ 74) point.now }
    requires size { length point.now ≡ length parts.now.columns }
    ensures { IsTrue result ↔ AreWithinSides parts.now denominator point.now × ArePaidRows parts.now denominator point.now y.now }
{
    are_within(parts, denominator, point) && are_paid(parts, y, denominator, point)
}
