//! Fractions from whole numbers, and from numbers that may have a common divisor.
ghost use Rattle.std.specs.Prelude.{◌≡◌, ◌≢◌, ◌<◌, ◌^◌, ◌*ℤ◌, ◌<ℤ◌, pos, int_div, unsigned_abs};
ghost use Rattle.frac128.specs.Fractions.{lowest_of, reduced_of, shared as shared_by, whole};
ghost use Rattle.frac128.specs.Rationals.{of};
ghost use Rattle.frac128.specs.Values.{value_of};

use crate::Frac;
use crate::checked::over;
use crate::divisors::shared;
use crate::fraction::fraction_of;
use crate::words::over_word;

impl Frac {
    /// A whole number as a fraction.
    #[inline]
    pub fn from_whole(number: i64) -> Frac
        ensures exact { result ≡ whole number }
        ensures value { value_of result ≡ of number }
    {
        fraction_of(i128::from(number), 1)
    }
}

/// The fraction num / den in lowest terms. The denominator is not 0, and neither number is the least `i128`.
pub fn frac(num: i128, den: i128) -> Frac
    requires nonzero { den ≢ pos 0 }
    requires num_fits { unsigned_abs num < 2 ^ 127 }
    requires den_fits { unsigned_abs den < 2 ^ 127 }
    ensures value { result ≡ reduced_of num den }
    ensures equal { result.num *ℤ den ≡ num *ℤ result.den }
{
    if den < 0 {
        lowest(-num, -den)
    } else {
        lowest(num, den)
    }
}

/// The fraction num / den in lowest terms, for a positive denominator.
fn lowest(num: i128, den: i128) -> Frac
    requires positive { pos 0 <ℤ den }
    requires num_fits { unsigned_abs num < 2 ^ 127 }
    ensures value { result ≡ lowest_of num den }
    ensures equal { result.num *ℤ den ≡ num *ℤ result.den }
{
    let factor = shared(num, den);
    divided(num, den, factor)
}

/// The fraction num / den with numerator and denominator divided by their greatest common divisor.
#[inline]
pub fn divided(num: i128, den: i128, factor: i128) -> Frac
    requires positive { pos 0 <ℤ den }
    requires num_fits { unsigned_abs num < 2 ^ 127 }
    requires factor { factor ≡ shared_by num den }
    ensures value { result ≡ lowest_of num den }
    ensures equal { result.num *ℤ den ≡ num *ℤ result.den }
{
    fraction_of(over(num, factor), over(den, factor))
}

/// The same for a divisor of 64 bits.
#[inline]
pub fn divided_by_word(num: i128, den: i128, factor: i64) -> Frac
    requires positive { pos 0 <ℤ den }
    requires num_fits { unsigned_abs num < 2 ^ 127 }
    requires factor { factor ≡ shared_by num den }
    ensures { result ≡ lowest_of num den }
{
    fraction_of(over_word(num, factor), over_word(den, factor))
}
