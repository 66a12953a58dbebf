//! The points of the proof of a cost sweep: whether they are feasible, and their slopes along the direction.
ghost use Rattle.std.specs.Prelude.{◌≡◌, ◌+◌, ◌-◌, ◌*ℤ◌, ◌<◌, ◌≤◌, ◌^◌, ℕ, length};
ghost use Rattle.std.specs.Int.RustNames.{unsigned_abs};
ghost use Rattle.ip_defs.specs.Lists.{Each, first};
ghost use Rattle.ip_defs.specs.Program.{at};
ghost use Rattle.sweep_proof.specs.CostRules.{breach_at as breach_at_of, slope_at as slope_at_of};
ghost use Rattle.sweep_proof.specs.CostSweeps.{FitsPoint, IsDirection, point_at, total};

use crate::SweepVerdict;
use crate::checks::fall_at;
use ip_defs::Point;
use ip_model::{IntModel, first_breach, product, total_of};

/// The point of a number.
pub(crate) fn point_of(points: &[Point], k: usize) -> &Point
    requires { k < length points.now }
    ensures { result.now ≡ point_at points.now k }
{
    &points[k]
}

/// The product of a number of a direction and a coordinate.
fn slope_term(step: i64, coordinate: i64) -> i128
    requires { unsigned_abs step ≤ 2 ^ 40 }
    ensures value { result ≡ step *ℤ coordinate }
    ensures small { unsigned_abs result ≤ 2 ^ 103 }
{
    product(i128::from(step), i128::from(coordinate))
}

/// The slope of a point along a direction: the sum of its numbers times the coordinates. With at most 4,096 columns its absolute value
/// stays below 2^116.
fn slope_of(dir: &[i64], point: &[i64]) -> i128
    requires size { length point.now ≡ length dir.now }
    requires few { length dir.now ≤ 4096 }
    requires small { (j : ℕ) → j < length dir.now → unsigned_abs (at dir.now j) ≤ 2 ^ 40 }
    ensures { result ≡ total dir.now point.now }
{
    let mut total = 0;
    for (j, coordinate) in point.iter().enumerate() {
        total = total_of(total, slope_term(dir[j], *coordinate));
    }
    total
}

/// The verdict where the point of a piece is not feasible.
fn breach_at(model: &IntModel, points: &[Point], k: usize) -> Option<SweepVerdict>
    requires few { length points.now ≤ 10000 }
    requires fits { Each (FitsPoint model.now) points.now }
    requires inside { k < length points.now }
    ensures { result ≡ breach_at_of model.now points.now k }
{
    match first_breach(model, point_of(points, k)) {
        Some(place) => Some(SweepVerdict::Breach {
            piece: k as u32,
            place,
        }),
        None => None,
    }
}

/// The first piece whose point is not feasible.
pub(crate) fn first_breached(model: &IntModel, points: &[Point]) -> Option<SweepVerdict>
    requires few { length points.now ≤ 10000 }
    requires fits { Each (FitsPoint model.now) points.now }
    ensures { result ≡ first (breach_at_of model.now points.now) (length points.now) }
{
    for k in 0..points.len() {
        if let Some(fault) = breach_at(model, points, k) {
            return Some(fault);
        }
    }
    None
}

/// The verdict where the slope of a piece is not above that of the next one.
fn slope_at(model: &IntModel, dir: &[i64], points: &[Point], k: usize) -> Option<SweepVerdict>
    requires few { length points.now ≤ 10000 }
    requires fits { Each (FitsPoint model.now) points.now }
    requires dir { IsDirection model.now dir.now }
    requires inside { k + 1 < length points.now }
    ensures { result ≡ slope_at_of dir.now points.now k }
{
    let _parts = model.parts();
    let left = slope_of(dir, point_of(points, k).as_slice());
    let right = slope_of(dir, point_of(points, k + 1).as_slice());
    fall_at(k as u32, Some(left), right)
}

/// The first piece whose slope is not above that of the next one.
pub(crate) fn first_rising(model: &IntModel, dir: &[i64], points: &[Point]) -> Option<SweepVerdict>
    requires some { 1 ≤ length points.now }
    requires few { length points.now ≤ 10000 }
    requires fits { Each (FitsPoint model.now) points.now }
    requires dir { IsDirection model.now dir.now }
    ensures { result ≡ first (slope_at_of dir.now points.now) (length points.now - 1) }
{
    for k in 0..points.len() - 1 {
        if let Some(fault) = slope_at(model, dir, points, k) {
            return Some(fault);
        }
    }
    None
}
