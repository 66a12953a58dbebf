//! Products of a point over one denominator: sides times the denominator, and the terms of rows.
ghost use Rattle.std.specs.Prelude.{◌≡◌, ◌^◌, ◌+◌, ◌*◌, ◌≤◌, ◌+ℤ◌, ◌-ℤ◌, ◌*ℤ◌};
ghost use Rattle.std.specs.Int.{w128};
ghost use Rattle.std.specs.Int.RustNames.{FitsSigned, unsigned_abs};

use ip_model::product;

/// A side times a denominator.
#[inline]
pub fn scaled(denominator: i128, side: i64) -> i128
    requires { unsigned_abs denominator ≤ 2 ^ 50 }
    ensures { result ≡ denominator *ℤ side }
{
    product(denominator, i128::from(side))
}

/// A coefficient times a numerator.
#[inline]
pub fn term(coefficient: i64, numerator: i128) -> i128
    requires coefficient { unsigned_abs coefficient ≤ 2 ^ 40 }
    requires numerator { unsigned_abs numerator ≤ 2 ^ 74 }
    ensures value { result ≡ coefficient *ℤ numerator }
    ensures small { unsigned_abs result ≤ 2 ^ 114 }
{
    product(i128::from(coefficient), numerator)
}
