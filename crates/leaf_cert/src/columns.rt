//! The part of a dual value that comes from the columns of a box.
ghost use Rattle.std.specs.Prelude.{◌≡◌, ◌*◌, ◌^◌, ◌<◌, ◌≤◌, ℕ, length, pos, ◌+ℤ◌, ◌*ℤ◌, ◌-ℤ◌};
ghost use Rattle.std.specs.Int.{int_min};
ghost use Rattle.std.specs.Int.RustNames.{unsigned_abs};
ghost use Rattle.ip_defs.specs.Program.{at, low_at, high_at, coefficient, costs_of};
ghost use Rattle.ip_defs.specs.Limits.{AreOrdered, AreSmall, IsWithinLimits, IsArea};
ghost use Rattle.ip_defs.specs.Sums.{sum_below};
ghost use Rattle.leaf_cert.specs.Columns.{AllSmall, taken_of};
ghost use Rattle.leaf_cert.specs.Internal.Columns.{least_part};

use ip_defs::Parts;
use ip_model::{difference, product, total_of};

/// Sets each number to 0.
pub fn clear(taken: &mut [i128])
    ensures { (j : ℕ) → j < length taken.new → at taken.new j ≡ pos 0 }
{
    for number in taken.iter_mut() {
        *number = 0;
    }
}

/// The sum of a number and a product.
#[inline]
fn plus_product(total: i128, multiplier: i64, coefficient: i64) -> i128
    requires { unsigned_abs total ≤ 2 ^ 125 }
    ensures { result ≡ total +ℤ multiplier *ℤ coefficient }
{
    total_of(
        total,
        product(i128::from(multiplier), i128::from(coefficient)),
    )
}

/// Adds a multiple of a row's coefficients to numbers, one for each column.
fn add_row(taken: &mut [i128], coefs: &[(u32, i64)], multiplier: i64)
    requires ordered { AreOrdered (length taken.old) coefs.now }
    requires small { AllSmall (2 ^ 125) taken.old }
    ensures { (j : ℕ) → j < length taken.old → at taken.new j ≡ at taken.old j +ℤ multiplier *ℤ coefficient coefs.now j }
{
    for (column, coefficient) in coefs {
        let j = *column as usize;
        taken[j] = plus_product(taken[j], multiplier, *coefficient);
    }
}

/// For each column the sum over the rows of multiplier times coefficient, for multipliers in order, each of an absolute value of at most
/// 2^36. `taken` has a number for each column; what the numbers are before does not matter. After, the absolute value of each is at most
/// 2^10 * 2^36 * 2^40 = 2^86.
pub fn take_rows(parts: &Parts, y: &[(u32, i64)], taken: &mut [i128])
    requires limits { IsWithinLimits parts.now }
    requires ordered { AreOrdered (length parts.now.rows) y.now }
    requires multipliers { AreSmall (2 ^ 36) y.now }
    requires size { length taken.old ≡ length parts.now.columns }
    ensures { (j : ℕ) → j < length taken.new → at taken.new j ≡ taken_of parts.now.rows y.now j }
{
    clear(taken);
    for (row, multiplier) in y {
        let rows = parts.rows.as_slice();
        let row = &rows[*row as usize];
        add_row(taken, row.coefs.as_slice(), *multiplier);
    }
}

/// The reduced cost of a column, times q: q times its cost, less the sum over the rows.
#[inline]
fn reduced_cost(q: i64, cost: i64, taken: i128) -> i128
    requires q_small { unsigned_abs q ≤ 2 ^ 36 }
    requires cost_small { unsigned_abs cost ≤ 2 ^ 40 }
    requires taken_small { unsigned_abs taken ≤ 2 ^ 86 }
    ensures value { result ≡ q *ℤ cost -ℤ taken }
    ensures small { unsigned_abs result ≤ 2 ^ 87 }
{
    difference(product(i128::from(q), i128::from(cost)), taken)
}

/// The reduced cost of a column, times q: q times its cost, less the sum over the rows that `taken` has for it. Its absolute value is at
/// most 2^87.
pub fn reduced_at(parts: &Parts, q: i64, taken: &[i128], j: usize) -> i128
    requires limits { IsWithinLimits parts.now }
    requires q_small { unsigned_abs q ≤ 2 ^ 36 }
    requires taken_small { AllSmall (2 ^ 86) taken.now }
    requires size { length taken.now ≡ length parts.now.columns }
    requires within { j < length parts.now.columns }
    ensures value { result ≡ q *ℤ at (costs_of parts.now) j -ℤ at taken.now j }
    ensures small { unsigned_abs result ≤ 2 ^ 87 }
{
    let columns = parts.columns.as_slice();
    reduced_cost(q, columns[j].cost, taken[j])
}

/// The lesser of reduced cost times lower bound and times upper bound.
#[inline]
fn lesser_end(reduced: i128, low: i64, high: i64) -> i128
    requires reduced_small { unsigned_abs reduced ≤ 2 ^ 87 }
    requires low_small { unsigned_abs low ≤ 2 ^ 24 }
    requires high_small { unsigned_abs high ≤ 2 ^ 24 }
    ensures lesser { result ≡ int_min (reduced *ℤ low) (reduced *ℤ high) }
    ensures small { unsigned_abs result ≤ 2 ^ 111 }
{
    let below = product(reduced, i128::from(low));
    let above = product(reduced, i128::from(high));
    below.min(above)
}

/// The sum over the columns of the lesser of reduced cost times lower bound and times upper bound. There are at most 2^12 columns.
pub fn column_sum(parts: &Parts, q: i64, taken: &[i128], area: &[(i64, i64)]) -> i128
    requires limits { IsWithinLimits parts.now }
    requires q_small { unsigned_abs q ≤ 2 ^ 36 }
    requires taken_small { AllSmall (2 ^ 86) taken.now }
    requires size { length taken.now ≡ length parts.now.columns }
    requires sides { IsArea (length parts.now.columns) area.now }
    ensures sum { result ≡ sum_below (least_part (costs_of parts.now) q taken.now area.now) (length area.now) }
    ensures small { unsigned_abs result ≤ 2 ^ 123 }
{
    let mut total: i128 = 0;
    for (j, side) in area.iter().enumerate() {
        let reduced = reduced_at(parts, q, taken, j);
        total = total_of(total, lesser_end(reduced, side.0, side.1));
    }
    total
}

/// A sum over the columns, in which the reduced cost of one column rises by `more`.
pub fn moved_sum(total: i128, reduced: i128, more: i128, side: (i64, i64)) -> i128
    requires total { unsigned_abs total ≤ 2 ^ 123 }
    requires reduced { unsigned_abs reduced ≤ 2 ^ 87 }
    requires risen { unsigned_abs (reduced +ℤ more) ≤ 2 ^ 87 }
    requires low { unsigned_abs side.0 ≤ 2 ^ 24 }
    requires high { unsigned_abs side.1 ≤ 2 ^ 24 }
    ensures value { result ≡ total -ℤ int_min (reduced *ℤ side.0) (reduced *ℤ side.1)
        +ℤ int_min ((reduced +ℤ more) *ℤ side.0) ((reduced +ℤ more) *ℤ side.1) }
    ensures small { unsigned_abs result ≤ 2 ^ 124 }
{
    let before = lesser_end(reduced, side.0, side.1);
    let after = lesser_end(total_of(reduced, more), side.0, side.1);
    total_of(difference(total, before), after)
}
