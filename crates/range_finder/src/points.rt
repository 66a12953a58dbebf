//! A point after a change of one number of a model: whether it stays feasible, and what it costs.
ghost use Rattle.std.specs.Prelude.{◌≡◌, ◌^◌, ◌<◌, ◌≤◌, ◌↔◌, ◌*ℤ◌, ◌≤ℤ◌, IfSome, IsTrue, length};
ghost use Rattle.std.specs.Int.RustNames.{unsigned_abs};
ghost use Rattle.ip_defs.specs.Limits.{AreOrdered, AreSmall, IsWithinLimits};
ghost use Rattle.ip_defs.specs.Program.{IsFeasible, cost as cost_of, row_sum};
ghost use Rattle.ip_model.specs.Places.{Exists, raised};
ghost use Rattle.leaf_cert.specs.Changes.{IsWithinLimit};
ghost use Rattle.range_finder.specs.Internal.Points.{KeepsRow, KeepsSides, Stays, value_of as value_of_row};

use ip_defs::{Parts, Point, Row};
use ip_model::{IntModel, Place, cost, product, total_of};
use perturbation::number_at;

/// The product of a coefficient, a cost or a change of one and a coordinate.
fn weighed(number: i128, coordinate: i64) -> i128
    requires { unsigned_abs number ≤ 2 ^ 41 }
    ensures value { result ≡ number *ℤ coordinate }
    ensures small { unsigned_abs result ≤ 2 ^ 104 }
{
    product(number, i128::from(coordinate))
}

/// The value of a row at a point. With at most 4,096 columns its absolute value is at most 2^126.
fn row_value(coefs: &[(u32, i64)], point: &[i64]) -> i128
    requires ordered { AreOrdered (length point.now) coefs.now }
    requires small { AreSmall (2 ^ 40) coefs.now }
    requires size { length point.now ≤ 4096 }
    ensures value { result ≡ row_sum coefs.now point.now }
    ensures small { unsigned_abs result ≤ 2 ^ 126 }
{
    let mut total = 0;
    for (column, coefficient) in coefs {
        total = total_of(
            total,
            weighed(i128::from(*coefficient), point[*column as usize]),
        );
    }
    total
}

/// Whether a value is at least a side, where that exists.
fn is_at_least(value: i128, side: Option<i64>) -> bool
    ensures { IsTrue result ↔ IfSome side (λ s. s ≤ℤ value) }
{
    match side {
        Some(side) => i128::from(side) <= value,
        None => true,
    }
}

/// Whether a value is at most a side, where that exists.
fn is_at_most(value: i128, side: Option<i64>) -> bool
    ensures { IsTrue result ↔ IfSome side (λ s. value ≤ℤ s) }
{
    match side {
        Some(side) => value <= i128::from(side),
        None => true,
    }
}

/// Whether a value keeps the sides of a row.
fn keeps_sides(row: &Row, value: i128) -> bool
    ensures { IsTrue result ↔ KeepsSides row.now value }
{
    is_at_least(value, row.low) && is_at_most(value, row.high)
}

/// The value of a row of a program at a point.
fn value_of(parts: &Parts, row: u32, point: &[i64]) -> i128
    requires limits { IsWithinLimits parts.now }
    requires row { row < length parts.now.rows }
    requires size { length point.now ≡ length parts.now.columns }
    ensures value { result ≡ value_of_row parts.now row point.now }
    ensures small { unsigned_abs result ≤ 2 ^ 126 }
{
    let row = &parts.rows.as_slice()[row as usize];
    row_value(row.coefs.as_slice(), point)
}

/// Whether a point keeps the sides of a row after the coefficient of a column rose by `by`.
fn keeps_row(parts: &Parts, row: u32, column: u32, by: i128, point: &[i64]) -> bool
    requires limits { IsWithinLimits parts.now }
    requires row { row < length parts.now.rows }
    requires column { column < length parts.now.columns }
    requires by { unsigned_abs by ≤ 2 ^ 41 }
    requires size { length point.now ≡ length parts.now.columns }
    ensures { IsTrue result ↔ KeepsRow parts.now row column by point.now }
{
    let value = value_of(parts, row, point);
    let more = weighed(by, point[column as usize]);
    keeps_sides(&parts.rows.as_slice()[row as usize], total_of(value, more))
}

/// Whether a feasible point keeps to the number at a place after it rose by `by`.
fn stays(parts: &Parts, place: Place, by: i128, point: &[i64]) -> bool
    requires limits { IsWithinLimits parts.now }
    requires exists { Exists parts.now place }
    requires within { IsWithinLimit parts.now place by }
    requires size { length point.now ≡ length parts.now.columns }
    ensures { IsTrue result ↔ Stays parts.now place by point.now }
{
    let number = total_of(i128::from(number_at(parts, place)), by);
    match place {
        Place::Cost(_) => true,
        Place::Lower(j) => number <= i128::from(point[j as usize]),
        Place::Upper(j) => i128::from(point[j as usize]) <= number,
        Place::Low(i) => number <= value_of(parts, i, point),
        Place::High(i) => value_of(parts, i, point) <= number,
        Place::Coef(i, j) => keeps_row(parts, i, j, by, point),
    }
}

/// Whether a feasible point of a model is feasible after the number at a place rose by `by`, which may be negative.
pub fn stays_feasible(model: &IntModel, place: Place, by: i128, point: &Point) -> bool
    requires exists { Exists model.now place }
    requires within { IsWithinLimit model.now place by }
    requires feasible { IsFeasible model.now point.now }
    ensures { IsTrue result ↔ IsFeasible (raised model.now place by) point.now }
{
    stays(model.parts(), place, by, point.as_slice())
}

/// The cost of a feasible point after the number at a place rose by `by`, whether it stays feasible or not.
pub fn cost_after(model: &IntModel, place: Place, by: i128, point: &Point) -> i128
    requires exists { Exists model.now place }
    requires within { IsWithinLimit model.now place by }
    requires feasible { IsFeasible model.now point.now }
    ensures { result ≡ cost_of (raised model.now place by) point.now }
{
    let _parts = model.parts();
    let before = cost(model, point);
    match place {
        Place::Cost(j) => total_of(before, weighed(by, point.as_slice()[j as usize])),
        Place::Low(_) | Place::High(_) | Place::Coef(_, _) | Place::Lower(_) | Place::Upper(_) => {
            before
        }
    }
}
