//! Sums and products of fractions whose parts have one word.
ghost use Rattle.std.specs.Prelude.{◌≡◌, ◌<ℤ◌, Ok, pos, IsTrue};
ghost use Rattle.frac128.specs.Fractions.{IsSmall, shared, sum_of, product_of};

use crate::Frac;
use crate::fraction::fraction_of;
use crate::making::divided_by_word;
use crate::words::{rest_by_word, total, word_over, word_product, word_shared};

/// The greatest number of 63 bits.
const LIMIT: i128 = i64::MAX as i128;

/// Whether both parts have 63 bits at most.
#[inline]
pub fn is_small(a: Frac) -> bool
    ensures { IsTrue result → IsSmall a }
{
    -LIMIT <= a.num && a.num <= LIMIT && a.den <= LIMIT
}

/// The product of two small fractions, which is never wide.
#[inline]
pub fn small_product(a: Frac, c: Frac) -> Frac
    requires first { IsSmall a }
    requires second { IsSmall c }
    ensures { Ok result ≡ product_of a c }
{
    let (num, den) = (a.num as i64, a.den as i64);
    let (other_num, other_den) = (c.num as i64, c.den as i64);
    let first = word_shared(num, other_den);
    let second = word_shared(other_num, den);
    fraction_of(
        word_product(word_over(num, first), word_over(other_num, second)),
        word_product(word_over(den, second), word_over(other_den, first)),
    )
}

/// The sum of two small fractions, which is never wide.
#[inline]
pub fn small_sum(a: Frac, c: Frac) -> Frac
    requires first { IsSmall a }
    requires second { IsSmall c }
    ensures { Ok result ≡ sum_of a c }
{
    let common = shared_den(a.den as i64, c.den as i64);
    let left_factor = word_over(c.den as i64, common);
    let right_factor = word_over(a.den as i64, common);
    let sum = total(
        word_product(a.num as i64, left_factor),
        word_product(c.num as i64, right_factor),
    );
    divided_by_word(
        sum,
        word_product(right_factor, c.den as i64),
        shared_factor(sum, common),
    )
}

/// The greatest common divisor of two denominators: at once where they are equal.
#[inline]
fn shared_den(a: i64, b: i64) -> i64
    requires { pos 0 <ℤ b }
    ensures value { result ≡ shared a b }
    ensures positive { pos 0 <ℤ result }
{
    if a == b { b } else { word_shared(a, b) }
}

/// The greatest common divisor of a number and a positive word.
#[inline]
fn shared_factor(a: i128, b: i64) -> i64
    requires { pos 0 <ℤ b }
    ensures value { result ≡ shared a b }
    ensures positive { pos 0 <ℤ result }
{
    if b == 1 {
        1
    } else {
        word_shared(rest_by_word(a, b), b)
    }
}
