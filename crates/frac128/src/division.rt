//! Quotients rounded down and up to whole numbers.
ghost use Rattle.std.specs.Prelude.{◌≡◌, ◌+ℤ◌, ◌-ℤ◌, ◌*ℤ◌, ◌<ℤ◌, ◌≤ℤ◌, pos};
ghost use Rattle.frac128.specs.Division.{floor_of, ceiling_of};

use crate::Frac;

/// a / b rounded down, for a positive b.
#[inline]
pub fn floor_div(a: i128, b: i128) -> i128
    requires { pos 0 <ℤ b }
    ensures value { result ≡ floor_of a b }
    ensures at_most { (result *ℤ b) ≤ℤ a }
    ensures greatest { a <ℤ ((result +ℤ pos 1) *ℤ b) }
{
    a.div_euclid(b)
}

/// a / b rounded up, for a positive b.
#[inline]
pub fn ceil_div(a: i128, b: i128) -> i128
    requires { pos 0 <ℤ b }
    ensures value { result ≡ ceiling_of a b }
    ensures at_least { a ≤ℤ (result *ℤ b) }
    ensures least { ((result -ℤ pos 1) *ℤ b) <ℤ a }
{
    if a > 0 { (a - 1) / b + 1 } else { a / b }
}

impl Frac {
    /// The fraction rounded down.
    #[inline]
    pub fn floor(self) -> i128
        ensures value { result ≡ floor_of self.num self.den }
        ensures at_most { (result *ℤ self.den) ≤ℤ self.num }
        ensures greatest { self.num <ℤ ((result +ℤ pos 1) *ℤ self.den) }
    {
        floor_div(self.num, self.den)
    }

    /// The fraction rounded up.
    #[inline]
    pub fn ceil(self) -> i128
        ensures value { result ≡ ceiling_of self.num self.den }
        ensures at_least { self.num ≤ℤ (result *ℤ self.den) }
        ensures least { ((result -ℤ pos 1) *ℤ self.den) <ℤ self.num }
    {
        ceil_div(self.num, self.den)
    }
}
