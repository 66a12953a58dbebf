//! The negative of a fraction, and its absolute value.
ghost use Rattle.std.specs.Prelude.{◌≡◌};
ghost use Rattle.frac128.specs.Fractions.{absolute_of, negative_of};
ghost use Rattle.frac128.specs.Rationals.{absolute as absolute_number, neg};
ghost use Rattle.frac128.specs.Values.{value_of};

use crate::Frac;
use crate::fraction::fraction_of;

impl Frac {
    /// The fraction with its sign turned.
    #[inline]
    pub fn negated(self) -> Frac
        ensures exact { result ≡ negative_of self }
        ensures value { value_of result ≡ neg (value_of self) }
    {
        fraction_of(-self.num, self.den)
    }

    /// The absolute value: the fraction without its sign.
    #[inline]
    pub fn absolute(self) -> Frac
        ensures exact { result ≡ absolute_of self }
        ensures value { value_of result ≡ absolute_number (value_of self) }
    {
        if self.num < 0 { self.negated() } else { self }
    }
}
