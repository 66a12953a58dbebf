//! The order of two fractions, exact for all of them.
ghost use Rattle.std.specs.Prelude.{◌≡◌, ◌*◌, ◌<◌, ◌*ℤ◌};
ghost use Rattle.std.specs.Ordering.{nat_cmp, int_cmp};
ghost use Rattle.frac128.specs.Fractions.{IsFraction, IsSmall};
ghost use Rattle.frac128.specs.Values.{IsOrder};

use crate::Frac;
use crate::small::is_small;
use crate::words::word_product;
use std::cmp::Ordering;

/// Compares two fractions by their values.
pub fn cmp(a: Frac, c: Frac) -> Ordering
    ensures exact { result ≡ int_cmp (a.num *ℤ c.den) (c.num *ℤ a.den) }
    ensures order { IsOrder result a c }
{
    comparison(a, c)
}

/// Compares two fractions: by their numerators where the denominators are equal, by their cross products where these fit.
#[inline]
fn comparison(a: Frac, c: Frac) -> Ordering
    ensures exact { result ≡ int_cmp (a.num *ℤ c.den) (c.num *ℤ a.den) }
    ensures first { IsFraction a.num a.den }
    ensures second { IsFraction c.num c.den }
{
    if a.den == c.den {
        a.num.cmp(&c.num)
    } else if is_small(a) && is_small(c) {
        small_comparison(a, c)
    } else {
        general_comparison(a, c)
    }
}

/// Compares the cross products of small fractions.
#[inline]
fn small_comparison(a: Frac, c: Frac) -> Ordering
    requires first { IsSmall a }
    requires second { IsSmall c }
    ensures { result ≡ int_cmp (a.num *ℤ c.den) (c.num *ℤ a.den) }
{
    let left = word_product(a.num as i64, c.den as i64);
    left.cmp(&word_product(c.num as i64, a.den as i64))
}

/// Compares any two fractions.
fn general_comparison(a: Frac, c: Frac) -> Ordering
    ensures { result ≡ int_cmp (a.num *ℤ c.den) (c.num *ℤ a.den) }
{
    let (num, den) = (a.num.unsigned_abs(), a.den.unsigned_abs());
    let (other_num, other_den) = (c.num.unsigned_abs(), c.den.unsigned_abs());
    match (a.num < 0, c.num < 0) {
        (false, true) => Ordering::Greater,
        (true, false) => Ordering::Less,
        (false, false) => compare(num, den, other_num, other_den),
        (true, true) => compare(other_num, other_den, num, den),
    }
}

/// Compares a / b with c / d. Where the quotients rounded down are equal, the fractions compare as the reciprocals of the remainders
/// do, in reverse order; so the comparison goes on like Euclid's algorithm.
fn compare(a: u128, b: u128, c: u128, d: u128) -> Ordering
    requires first { 0 < b }
    requires second { 0 < d }
    ensures { result ≡ nat_cmp (a * d) (c * b) }
{
    let (whole, other_whole) = (a / b, c / d);
    if whole < other_whole {
        return Ordering::Less;
    }
    if other_whole < whole {
        return Ordering::Greater;
    }
    let (rest, other_rest) = (a % b, c % d);
    if rest == 0 {
        if other_rest == 0 {
            return Ordering::Equal;
        }
        return Ordering::Less;
    }
    if other_rest == 0 {
        return Ordering::Greater;
    }
    compare(d, other_rest, b, rest)
}
