//! Products and quotients of fractions.
ghost use Rattle.std.specs.Prelude.{◌≡◌, ◌≢◌, IfOk, pos};
ghost use Rattle.frac128.specs.Fractions.{IsFraction, product_of, quotient_of, reciprocal_of};
ghost use Rattle.frac128.specs.Values.{IsProduct, IsQuotient};

use crate::checked::{over, times};
use crate::divisors::shared;
use crate::fraction::fraction_of;
use crate::small::{is_small, small_product};
use crate::{Frac, Wide};

/// The product. For the arguments a/b and c/d, with g = gcd(a, d) and h = gcd(c, b), the answer is `Wide` exactly where
/// (a/g) * (c/h) or (b/h) * (d/g) leaves the range.
pub fn mul(a: Frac, c: Frac) -> Result<Frac, Wide>
    ensures exact { result ≡ product_of a c }
    ensures value { IfOk result (IsProduct a c) }
{
    product(a, c)
}

/// The quotient by a fraction that is not 0: the product with the reciprocal, `Wide` exactly where that is.
pub fn div(a: Frac, c: Frac) -> Result<Frac, Wide>
    requires { c.num ≢ pos 0 }
    ensures exact { result ≡ quotient_of a c }
    ensures value { IfOk result (IsQuotient a c) }
{
    product(a, reciprocal(c))
}

/// One divided by the fraction.
#[inline]
fn reciprocal(c: Frac) -> Frac
    requires { c.num ≢ pos 0 }
    ensures value { result ≡ reciprocal_of c }
    ensures fraction { IsFraction c.num c.den }
{
    if c.num < 0 {
        fraction_of(-c.den, -c.num)
    } else {
        fraction_of(c.den, c.num)
    }
}

/// The product. The cheap cases come first: whole numbers, 0, and numerators and denominators of 63 bits.
#[inline]
fn product(a: Frac, c: Frac) -> Result<Frac, Wide>
    ensures exact { result ≡ product_of a c }
    ensures first { IsFraction a.num a.den }
    ensures second { IsFraction c.num c.den }
{
    if a.den == 1 && c.den == 1 {
        whole_product(a, c)
    } else if a.num == 0 || c.num == 0 {
        Ok(fraction_of(0, 1))
    } else if is_small(a) && is_small(c) {
        Ok(small_product(a, c))
    } else {
        general_product(a, c)
    }
}

/// The product of two whole numbers.
#[inline]
fn whole_product(a: Frac, c: Frac) -> Result<Frac, Wide>
    requires first { a.den ≡ pos 1 }
    requires second { c.den ≡ pos 1 }
    ensures { result ≡ product_of a c }
{
    match times(a.num, c.num) {
        Some(num) => Ok(fraction_of(num, 1)),
        None => Err(Wide),
    }
}

/// The product of any two fractions.
fn general_product(a: Frac, c: Frac) -> Result<Frac, Wide>
    ensures { result ≡ product_of a c }
{
    let first = shared(a.num, c.den);
    let second = shared(c.num, a.den);
    match (
        times(over(a.num, first), over(c.num, second)),
        times(over(a.den, second), over(c.den, first)),
    ) {
        (Some(num), Some(den)) => Ok(fraction_of(num, den)),
        _ => Err(Wide),
    }
}
