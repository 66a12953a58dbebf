//! What a change of one number of a program changes in the dual values of its leaves.
ghost use Rattle.std.specs.Prelude.{◌≡◌, ◌*◌, ◌^◌, ◌<◌, ◌≤◌, ℕ, IfSome, length, ◌*ℤ◌};
ghost use Rattle.std.specs.Int.RustNames.{unsigned_abs};
ghost use Rattle.ip_defs.specs.Program.{at, coefficient};
ghost use Rattle.ip_defs.specs.Certificates.{column_part, pay};
ghost use Rattle.ip_defs.specs.Limits.{AreOrdered, AreSmall, IsArea, IsWithinLimits};
ghost use Rattle.ip_model.specs.Places.{limit_of};
ghost use Rattle.leaf_cert.specs.Columns.{taken_of};
ghost use Rattle.leaf_cert.specs.Changes.{IsChange, changed_by};
ghost use Rattle.leaf_cert.specs.Internal.Changes.{rise_of as rise_of_of};
ghost use Rattle.leaf_cert.specs.Internal.Changes.{more_at as more_at_of, more_paid as more_paid_of, rise_at as rise_at_of};

use crate::columns::{column_sum, moved_sum, reduced_at};
use crate::payments::paid;
use ip_defs::Parts;
use ip_model::{Place, difference, product, total_of};

/// A change of the number at a place, by so much; none where no number changes.
pub type Change = Option<(Place, i128)>;

/// The multiplier of a row, 0 where it has none.
fn multiplier_of(y: &[(u32, i64)], row: u32) -> i64
    requires { AreSmall (2 ^ 36) y.now }
    ensures value { (n : ℕ) → AreOrdered n y.now → result ≡ coefficient y.now row }
    ensures small { unsigned_abs result ≤ 2 ^ 36 }
{
    for (i, multiplier) in y {
        if *i == row {
            return *multiplier;
        }
    }
    0
}

/// The product of a multiplier and a change.
fn times(multiplier: i64, by: i128) -> i128
    requires multiplier { unsigned_abs multiplier ≤ 2 ^ 36 }
    requires by { unsigned_abs by ≤ 2 ^ 63 }
    ensures value { result ≡ multiplier *ℤ by }
    ensures small { unsigned_abs result ≤ 2 ^ 99 }
{
    product(i128::from(multiplier), by)
}

/// How much more the multipliers are paid for a side that changes.
fn more_at(place: Place, by: i128, y: &[(u32, i64)]) -> i128
    requires multipliers { AreSmall (2 ^ 36) y.now }
    requires by { unsigned_abs by ≤ 2 ^ 63 }
    ensures value { (n : ℕ) → AreOrdered n y.now → result ≡ more_at_of place by y.now }
    ensures small { unsigned_abs result ≤ 2 ^ 99 }
{
    match place {
        Place::Low(i) => times(multiplier_of(y, i).max(0), by),
        Place::High(i) => times(multiplier_of(y, i).min(0), by),
        Place::Cost(_) | Place::Coef(_, _) | Place::Lower(_) | Place::Upper(_) => 0,
    }
}

/// How much more the multipliers are paid for after a change.
fn more_paid(change: Change, y: &[(u32, i64)]) -> i128
    requires multipliers { AreSmall (2 ^ 36) y.now }
    requires by { IfSome change (λ c. unsigned_abs c.1 ≤ 2 * limit_of c.0) }
    ensures value { (n : ℕ) → AreOrdered n y.now → result ≡ more_paid_of change y.now }
    ensures small { unsigned_abs result ≤ 2 ^ 99 }
{
    match change {
        Some((place, by)) => more_at(place, by, y),
        None => 0,
    }
}

/// The sum of all payments after a change, none where one of them is none. Its absolute value is at most 2^109.
pub fn changed_pay(parts: &Parts, change: Change, y: &[(u32, i64)]) -> Option<i128>
    requires limits { IsWithinLimits parts.now }
    requires change { IsChange parts.now change }
    requires ordered { AreOrdered (length parts.now.rows) y.now }
    requires multipliers { AreSmall (2 ^ 36) y.now }
    ensures paid { result ≡ pay (changed_by parts.now change).rows y.now }
    ensures small { IfSome result (λ paid. unsigned_abs paid ≤ 2 ^ 109) }
{
    match paid(parts, y) {
        Some(paid) => Some(total_of(paid, more_paid(change, y))),
        None => None,
    }
}

/// The rise of a reduced cost by a multiplier of the change of a cost or a coefficient.
fn rise(multiplier: i64, by: i128) -> i128
    requires multiplier { unsigned_abs multiplier ≤ 2 ^ 36 }
    requires by { unsigned_abs by ≤ 2 ^ 41 }
    ensures value { result ≡ multiplier *ℤ by }
    ensures small { unsigned_abs result ≤ 2 ^ 77 }
{
    product(i128::from(multiplier), by)
}

/// The column whose reduced cost is moved by the change at a place, and how much that rises.
fn rise_at(place: Place, by: i128, q: i64, y: &[(u32, i64)]) -> Option<(u32, i128)>
    requires q { unsigned_abs q ≤ 2 ^ 36 }
    requires multipliers { AreSmall (2 ^ 36) y.now }
    requires by { unsigned_abs by ≤ 2 * limit_of place }
    ensures value { (n : ℕ) → AreOrdered n y.now → result ≡ rise_at_of place by q y.now }
    ensures small { IfSome result (λ r. unsigned_abs r.1 ≤ 2 ^ 77) }
{
    match place {
        Place::Cost(j) => Some((j, rise(q, by))),
        Place::Coef(i, j) => Some((j, difference(0, rise(multiplier_of(y, i), by)))),
        Place::Low(_) | Place::High(_) | Place::Lower(_) | Place::Upper(_) => None,
    }
}

/// The column whose reduced cost is moved by a change, and how much that rises; none where no reduced cost is moved.
fn rise_of(change: Change, q: i64, y: &[(u32, i64)]) -> Option<(u32, i128)>
    requires q { unsigned_abs q ≤ 2 ^ 36 }
    requires multipliers { AreSmall (2 ^ 36) y.now }
    requires by { IfSome change (λ c. unsigned_abs c.1 ≤ 2 * limit_of c.0) }
    ensures value { (n : ℕ) → AreOrdered n y.now → result ≡ rise_of_of change q y.now }
    ensures small { IfSome result (λ r. unsigned_abs r.1 ≤ 2 ^ 77) }
{
    match change {
        Some((place, by)) => rise_at(place, by, q, y),
        None => None,
    }
}

/// The sum over the columns of a box after a change, from the sums over the rows of the program as it is.
pub fn changed_sum(
    parts: &Parts,
    change: Change,
    q: i64,
    y: &[(u32, i64)],
    taken: &[i128],
    area: &[(i64, i64)],
) -> i128
    requires limits { IsWithinLimits parts.now }
    requires change { IsChange parts.now change }
    requires q_small { unsigned_abs q ≤ 2 ^ 36 }
    requires ordered { AreOrdered (length parts.now.rows) y.now }
    requires multipliers { AreSmall (2 ^ 36) y.now }
    requires taken { (j : ℕ) → j < length taken.now → at taken.now j ≡ taken_of parts.now.rows y.now j }
    requires size { length taken.now ≡ length parts.now.columns }
    requires sides { IsArea (length parts.now.columns) area.now }
    ensures sum { result ≡ column_part (changed_by parts.now change) area.now q y.now }
    ensures small { unsigned_abs result ≤ 2 ^ 124 }
{
    let total = column_sum(parts, q, taken, area);
    match rise_of(change, q, y) {
        Some((j, more)) => {
            let j = j as usize;
            moved_sum(total, reduced_at(parts, q, taken, j), more, area[j])
        }
        None => total,
    }
}
