//! Whether the columns of a point stand at the sides that their reduced costs pay.
ghost use Rattle.std.specs.Prelude.{◌≡◌, ◌^◌, ◌<◌, ◌≤◌, ◌↔◌, ℕ, IsTrue, length, pos, ◌-ℤ◌, ◌*ℤ◌, ◌≤ℤ◌, ◌<ℤ◌};
ghost use Rattle.std.specs.Int.RustNames.{unsigned_abs};
ghost use Rattle.ip_defs.specs.Program.{at, low_at, high_at, costs_of};
ghost use Rattle.ip_defs.specs.Limits.{IsWithinLimits};
ghost use Rattle.leaf_cert.specs.Columns.{AllSmall};
ghost use Rattle.slackness.specs.Internal.Columns.{AreTightBy};
ghost use Rattle.slackness.specs.Tight.{IsBetween, IsPaid, IsTightColumn};

use crate::products::scaled;
use ip_defs::Parts;
use leaf_cert::reduced_at;

/// Whether a number lies between two others.
#[inline]
fn is_between(least: i128, number: i128, greatest: i128) -> bool
    ensures { IsTrue result ↔ IsBetween least number greatest }
{
    least <= number && number <= greatest
}

/// Whether a number is the least of its range with a positive reduced cost, and the greatest with a negative one.
#[inline]
fn is_paid(least: i128, number: i128, greatest: i128, reduced_cost: i128) -> bool
    ensures { IsTrue result ↔ IsPaid least number greatest reduced_cost }
{
    if reduced_cost > 0 {
        number == least
    } else if reduced_cost < 0 {
        number == greatest
    } else {
        true
    }
}

/// Whether a number lies between two others, and is the one of them that a reduced cost pays.
#[inline]
fn is_paid_between(least: i128, number: i128, greatest: i128, reduced_cost: i128) -> bool
    ensures { IsTrue result ↔ IsBetween least number greatest × IsPaid least number greatest reduced_cost }
{
    is_between(least, number, greatest) && is_paid(least, number, greatest, reduced_cost)
}

/// Whether a number over a denominator lies between two sides, and is the one that a reduced cost pays.
fn is_tight(denominator: i128, low: i64, high: i64, number: i128, reduced_cost: i128) -> bool
    requires { unsigned_abs denominator ≤ 2 ^ 50 }
    ensures { IsTrue result ↔ IsTightColumn denominator low high number reduced_cost }
{
    let least = scaled(denominator, low);
    let greatest = scaled(denominator, high);
    is_paid_between(least, number, greatest, reduced_cost)
}

/// Whether each column lies between its sides, and is at the one that its reduced cost pays.
pub fn are_tight(
    parts: &Parts,
    q: i64,
    taken: &[i128],
    area: &[(i64, i64)],
    denominator: i128,
    point: &[i128],
) -> bool
    requires limits { IsWithinLimits parts.now }
    requires q_small { unsigned_abs q ≤ 2 ^ 36 }
    requires denominator_small { unsigned_abs denominator ≤ 2 ^ 50 }
    requires taken_small { AllSmall (2 ^ 86) taken.now }
    requires taken_size { length taken.now ≡ length parts.now.columns }
    requires area_size { length area.now ≡ length parts.now.columns }
    requires point_size { length point.now ≡ length parts.now.columns }
    ensures { IsTrue result ↔ AreTightBy parts.now area.now denominator point.now q taken.now }
{
    for (j, side) in area.iter().enumerate() {
        let reduced = reduced_at(parts, q, taken, j);
        if !is_tight(denominator, side.0, side.1, point[j], reduced) {
            return false;
        }
    }
    true
}
