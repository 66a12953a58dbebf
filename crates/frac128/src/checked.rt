//! Products, sums and quotients of numerators and denominators, where they are in the range.
ghost use Rattle.std.specs.Prelude.{◌≡◌, ◌+ℤ◌, ◌*ℤ◌, ◌<ℤ◌, pos, int_div};
ghost use Rattle.frac128.specs.Fractions.{within};

use crate::words::word_product;

/// A product, none where it is not in the range.
#[inline]
pub fn times(a: i128, b: i128) -> Option<i128>
    ensures { result ≡ within (a *ℤ b) }
{
    if let (Ok(a), Ok(b)) = (i64::try_from(a), i64::try_from(b)) {
        return Some(word_product(a, b));
    }
    match a.checked_mul(b) {
        Some(product) if product != i128::MIN => Some(product),
        _ => None,
    }
}

/// A sum, none where it is not in the range.
#[inline]
pub fn plus(a: i128, b: i128) -> Option<i128>
    ensures { result ≡ within (a +ℤ b) }
{
    match a.checked_add(b) {
        Some(sum) if sum != i128::MIN => Some(sum),
        _ => None,
    }
}

/// A quotient by a positive number, rounded toward zero.
#[inline]
pub fn over(a: i128, b: i128) -> i128
    requires { pos 0 <ℤ b }
    ensures { result ≡ int_div a b }
{
    if b == 1 { a } else { a / b }
}
