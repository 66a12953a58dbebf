//! The greatest common divisor of numbers of 128 bits.
ghost use Rattle.std.specs.Prelude.{◌≡◌, ◌%◌, ◌<ℤ◌, pos, unsigned_abs};
ghost use Rattle.std.specs.Int.{IsGcd};
ghost use Rattle.frac128.specs.Gcd.{gcd as gcd_of};
ghost use Rattle.frac128.specs.Fractions.{shared as shared_by};

use crate::words::{odd_gcd, word_gcd};

/// The greatest number of 64 bits.
const WORD: u128 = u64::MAX as u128;

/// The greatest common divisor. For a number and 0 it is the number, and for 0 and 0 it is 0.
pub fn gcd(a: u128, b: u128) -> u128
    ensures value { result ≡ gcd_of a b }
    ensures greatest { IsGcd a b result }
{
    long_gcd(a, b)
}

/// One division makes words of the numbers where either is one. Else it goes on by the binary algorithm of Stein.
fn long_gcd(a: u128, b: u128) -> u128
    ensures { result ≡ gcd_of a b }
{
    if a == 0 {
        return b;
    }
    if b == 0 {
        return a;
    }
    if b <= WORD {
        return u128::from(word_gcd(b as u64, (a % b) as u64));
    }
    if a <= WORD {
        return u128::from(word_gcd(a as u64, (b % a) as u64));
    }
    let (twos, other_twos) = (a.trailing_zeros(), b.trailing_zeros());
    odd_long_gcd(a >> twos, b >> other_twos) << twos.min(other_twos)
}

/// The greatest common divisor of two odd numbers: by words from where both are words on.
fn odd_long_gcd(a: u128, b: u128) -> u128
    requires first { a % 2 ≡ 1 }
    requires second { b % 2 ≡ 1 }
    ensures { result ≡ gcd_of a b }
{
    let (mut x, mut y) = (a, b);
    while x != y {
        if x <= WORD && y <= WORD {
            return u128::from(odd_gcd(x as u64, y as u64));
        }
        let gap = x.abs_diff(y);
        y = x.min(y);
        x = gap >> gap.trailing_zeros();
    }
    x
}

/// The greatest common divisor of the absolute values, where the second number is positive.
pub fn shared(a: i128, b: i128) -> i128
    requires { pos 0 <ℤ b }
    ensures value { result ≡ shared_by a b }
    ensures positive { pos 0 <ℤ result }
{
    gcd(a.unsigned_abs(), b.unsigned_abs()) as i128
}
