//! Sums and differences of fractions.
ghost use Rattle.std.specs.Prelude.{◌≡◌, IfOk, pos};
ghost use Rattle.frac128.specs.Fractions.{IsFraction, sum_of, difference_of};
ghost use Rattle.frac128.specs.Values.{IsSum, IsDifference};

use crate::checked::{over, plus, times};
use crate::divisors::shared;
use crate::fraction::fraction_of;
use crate::making::divided;
use crate::small::{is_small, small_sum};
use crate::{Frac, Wide};

/// The sum. With the arguments a/b and c/d and g = gcd(b, d), `Wide` comes exactly where a * (d/g), c * (b/g), their sum or (b/g) * d
/// leaves the range.
pub fn add(a: Frac, c: Frac) -> Result<Frac, Wide>
    ensures exact { result ≡ sum_of a c }
    ensures value { IfOk result (IsSum a c) }
{
    sum(a, c)
}

/// The difference: the sum with `c` negated.
pub fn sub(a: Frac, c: Frac) -> Result<Frac, Wide>
    ensures exact { result ≡ difference_of a c }
    ensures value { IfOk result (IsDifference a c) }
{
    sum(a, c.negated())
}

/// The sum. The cheap cases come first: whole numbers, 0, and parts of one word.
#[inline]
fn sum(a: Frac, c: Frac) -> Result<Frac, Wide>
    ensures exact { result ≡ sum_of a c }
    ensures first { IsFraction a.num a.den }
    ensures second { IsFraction c.num c.den }
{
    if a.den == 1 && c.den == 1 {
        whole_sum(a, c)
    } else if a.num == 0 {
        Ok(c)
    } else if c.num == 0 {
        Ok(a)
    } else if is_small(a) && is_small(c) {
        Ok(small_sum(a, c))
    } else {
        general_sum(a, c)
    }
}

/// The sum of two whole numbers.
#[inline]
fn whole_sum(a: Frac, c: Frac) -> Result<Frac, Wide>
    requires first { a.den ≡ pos 1 }
    requires second { c.den ≡ pos 1 }
    ensures { result ≡ sum_of a c }
{
    match plus(a.num, c.num) {
        Some(num) => Ok(fraction_of(num, 1)),
        None => Err(Wide),
    }
}

/// The sum of any two fractions. What it has in common with its denominator divides the common part of the denominators (Knuth, The
/// Art of Computer Programming, 4.5.1).
fn general_sum(a: Frac, c: Frac) -> Result<Frac, Wide>
    ensures { result ≡ sum_of a c }
{
    let common = shared(a.den, c.den);
    let left_factor = over(c.den, common);
    let right_factor = over(a.den, common);
    match (
        times(a.num, left_factor),
        times(c.num, right_factor),
        times(right_factor, c.den),
    ) {
        (Some(left), Some(right), Some(den)) => match plus(left, right) {
            Some(num) => Ok(divided(num, den, shared(num, common))),
            None => Err(Wide),
        },
        _ => Err(Wide),
    }
}
