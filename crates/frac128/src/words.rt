//! Arithmetic of one word, for the cheap cases.
ghost use Rattle.std.specs.Prelude.{◌≡◌, ◌%◌, ◌<◌, ◌^◌, ◌+ℤ◌, ◌*ℤ◌, ◌<ℤ◌, pos, int_div, int_rem, unsigned_abs, FitsSigned};
ghost use Rattle.std.specs.Int.{w128};
ghost use Rattle.frac128.specs.Fractions.{shared};
ghost use Rattle.frac128.specs.Gcd.{gcd as gcd_of};

/// The greatest common divisor of two words, by the binary algorithm of Stein.
#[inline]
pub fn word_gcd(a: u64, b: u64) -> u64
    ensures { result ≡ gcd_of a b }
{
    if a == 0 {
        return b;
    }
    if b == 0 {
        return a;
    }
    let (twos, other_twos) = (a.trailing_zeros(), b.trailing_zeros());
    odd_gcd(a >> twos, b >> other_twos) << twos.min(other_twos)
}

/// The greatest common divisor of two odd words.
pub fn odd_gcd(a: u64, b: u64) -> u64
    requires first { a % 2 ≡ 1 }
    requires second { b % 2 ≡ 1 }
    ensures { result ≡ gcd_of a b }
{
    let (mut x, mut y) = (a, b);
    while x != y {
        let gap = x.abs_diff(y);
        y = x.min(y);
        x = gap >> gap.trailing_zeros();
    }
    x
}

/// The greatest common divisor of the absolute values of two numbers of 64 bits, where the second is positive.
#[inline]
pub fn word_shared(a: i64, b: i64) -> i64
    requires { pos 0 <ℤ b }
    ensures value { result ≡ shared a b }
    ensures positive { pos 0 <ℤ result }
{
    if b == 1 {
        return 1;
    }
    word_gcd(a.unsigned_abs(), b.unsigned_abs()) as i64
}

/// A quotient of words by a positive number, toward zero.
#[inline]
pub fn word_over(a: i64, b: i64) -> i64
    requires { pos 0 <ℤ b }
    ensures { result ≡ int_div a b }
{
    if b == 1 { a } else { a / b }
}

/// The product of two words.
#[inline]
pub fn word_product(a: i64, b: i64) -> i128
    ensures { result ≡ a *ℤ b }
{
    i128::from(a) * i128::from(b)
}

/// A quotient by a positive word, toward zero: a division of words where the first number is one too.
#[inline]
pub fn over_word(a: i128, b: i64) -> i128
    requires { pos 0 <ℤ b }
    ensures { result ≡ int_div a b }
{
    if b == 1 {
        return a;
    }
    match i64::try_from(a) {
        Ok(word) => i128::from(word / b),
        Err(_) => a / i128::from(b),
    }
}

/// The remainder by a positive number of 64 bits, with the sign of the first number.
#[inline]
pub fn rest_by_word(a: i128, b: i64) -> i64
    requires { pos 0 <ℤ b }
    ensures { result ≡ int_rem a b }
{
    match i64::try_from(a) {
        Ok(word) => word % b,
        Err(_) => (a % i128::from(b)) as i64,
    }
}

/// A sum that fits.
#[inline]
pub fn total(a: i128, b: i128) -> i128
    requires { FitsSigned w128 (a +ℤ b) }
    ensures { result ≡ a +ℤ b }
{
    a + b
}
