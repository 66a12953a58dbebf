//! The least common denominator of fractions, within a limit.
ghost use Rattle.std.specs.Prelude.{◌≡◌, ◌*◌, ◌/◌, ◌^◌, ◌<◌, ◌≤◌, suc};
ghost use Rattle.frac128.specs.Values.{value_of};
ghost use Rattle.dual_rays.specs.Certificates.{divisor_of, values};
ghost use Rattle.dual_rays.specs.Multiples.{lcm, common_denominator};

use frac128::{Frac, gcd};

/// The greatest absolute value of a certificate's numbers.
pub const LARGEST: u128 = 1 << 36;

/// The denominator of a fraction.
#[inline]
pub fn denominator(x: Frac) -> u128
    ensures { result ≡ suc (value_of x).less }
{
    x.den().unsigned_abs()
}

/// A product of a denominator within the limit.
#[inline]
fn product(a: u128, b: u128) -> u128
    requires first { a ≤ 2 ^ 36 }
    requires second { b ≤ 2 ^ 36 }
    ensures { result ≡ a * b }
{
    a * b
}

/// The least common multiple of a denominator and a number within the limit, none where it exceeds the limit.
fn common(a: u128, b: u128) -> Option<u128>
    requires first { 0 < a }
    requires second { 0 < b }
    requires small { b ≤ 2 ^ 36 }
    ensures { result ≡ divisor_of (lcm a b) }
{
    if a > LARGEST {
        return None;
    }
    let multiple = product(a, b / gcd(a, b));
    if multiple > LARGEST {
        None
    } else {
        Some(multiple)
    }
}

/// The least common denominator, none where it exceeds the limit.
pub fn least_denominator(prices: &[Frac]) -> Option<u128>
    ensures { result ≡ divisor_of (common_denominator (values prices.now)) }
{
    let mut q = 1;
    for price in prices {
        match common(denominator(*price), q) {
            Some(more) => q = more,
            None => return None,
        }
    }
    Some(q)
}
