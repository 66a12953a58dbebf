//! Arithmetic of 128 bits that is exact: the terms of costs and row values, sums, differences and products.
ghost use Rattle.std.specs.Prelude.{◌≡◌, ◌^◌, ◌≤◌, ◌+ℤ◌, ◌-ℤ◌, ◌*ℤ◌};
ghost use Rattle.std.specs.Int.{w128};
ghost use Rattle.std.specs.Int.RustNames.{FitsSigned, unsigned_abs};

/// The product of a coefficient or cost and a coordinate. A coordinate is any 64-bit number, so the absolute value of the product is at
/// most 2^103.
#[inline]
pub fn term(coefficient: i64, coordinate: i64) -> i128
    requires { unsigned_abs coefficient ≤ 2 ^ 40 }
    ensures value { result ≡ coefficient *ℤ coordinate }
    ensures small { unsigned_abs result ≤ 2 ^ 103 }
{
    i128::from(coefficient) * i128::from(coordinate)
}

/// A sum that fits into 128 bits.
#[inline]
pub fn total_of(a: i128, b: i128) -> i128
    requires { FitsSigned w128 (a +ℤ b) }
    ensures { result ≡ a +ℤ b }
{
    a + b
}

/// A difference that fits into 128 bits.
#[inline]
pub fn difference(a: i128, b: i128) -> i128
    requires { FitsSigned w128 (a -ℤ b) }
    ensures { result ≡ a -ℤ b }
{
    a - b
}

/// A product that fits into 128 bits.
#[inline]
pub fn product(a: i128, b: i128) -> i128
    requires { FitsSigned w128 (a *ℤ b) }
    ensures { result ≡ a *ℤ b }
{
    a * b
}
