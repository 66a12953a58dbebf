//! Comparisons of quotients of whole numbers that are not negative.

/// The greatest number of 64 bits.
const GREATEST_WORD: u128 = 0xffff_ffff_ffff_ffff;

/// Whether a / b is less than c / d, exactly, where neither divisor is 0.
#[inline]
pub fn is_less(a: u128, b: u128, c: u128, d: u128) -> bool {
    if a.max(b).max(c).max(d) <= GREATEST_WORD {
        return a.wrapping_mul(d) < c.wrapping_mul(b);
    }
    is_less_by_division(a, b, c, d)
}

/// The same by the whole parts of both quotients, and then by those of what remains.
fn is_less_by_division(a: u128, b: u128, c: u128, d: u128) -> bool {
    let (mut a, mut b, mut c, mut d) = (a, b, c, d);
    for _ in 0..256 {
        if b == 0 || d == 0 {
            return false;
        }
        let (whole, other_whole) = (a / b, c / d);
        if whole != other_whole {
            return whole < other_whole;
        }
        let (remainder, other_remainder) = (a % b, c % d);
        if other_remainder == 0 {
            return false;
        }
        if remainder == 0 {
            return true;
        }
        a = d;
        d = remainder;
        c = b;
        b = other_remainder;
    }
    false
}

/// Whether a / b is greater than c / d, by the leading 64 bits or so of each.
#[inline]
pub fn is_roughly_greater(a: u128, b: u128, c: u128, d: u128) -> bool {
    let zeros = a.max(b).max(c).max(d).leading_zeros();
    let shift = if zeros >= 64 { 0 } else { 64 - zeros };
    (a >> shift).wrapping_mul(d >> shift) > (c >> shift).wrapping_mul(b >> shift)
}
