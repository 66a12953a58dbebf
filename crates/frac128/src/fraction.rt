//! Fractions in lowest terms, their numerators and denominators.
ghost use Rattle.std.specs.Prelude.{◌≡◌};
ghost use Rattle.frac128.specs.Fractions.{IsFraction};
ghost use Rattle.frac128.specs.Values.{value_of};

use std::marker::Model;

/// The error that an intermediate number of an operation left the range.
#[derive(Clone, Copy, Debug, PartialEq, Eq)]
pub struct Wide;

/// A fraction in lowest terms, with a positive denominator; numerator and denominator are in the range.
#[derive(Clone, Copy, Debug)]
pub struct Frac {
    pub(crate) num: i128,
    pub(crate) den: i128,
}

impl Model for Frac {
    ghost use Rattle.frac128.specs.Fractions.{Fraction, IsFraction};

    ghost Value = { Fraction };

    ghost view = { λ f. record { num = f.num; den = f.den } };

    ghost invariant = { λ f. IsFraction f.num f.den };

    ghost inverse = { λ v. record { num = v.num; den = v.den } };
}

/// The fraction of a numerator and a denominator that are in lowest terms.
#[inline]
pub(crate) fn fraction_of(num: i128, den: i128) -> Frac
    requires { IsFraction num den }
    ensures value { result ≡ record { num = num; den = den } }
    ensures fraction { IsFraction result.num result.den }
{
    Frac { num, den }
}

impl Frac {
    /// The numerator, which carries the sign.
    #[inline]
    pub fn num(self) -> i128
        ensures value { result ≡ self.num }
        ensures numerator { result ≡ (value_of self).numerator }
        ensures fraction { IsFraction self.num self.den }
    {
        self.num
    }

    /// The denominator, which is positive.
    #[inline]
    pub fn den(self) -> i128
        ensures value { result ≡ self.den }
        ensures fraction { IsFraction self.num self.den }
    {
        self.den
    }
}
