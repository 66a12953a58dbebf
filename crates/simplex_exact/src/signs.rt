//! The order of two fractions, and the negation of a fraction.
ghost use Rattle.std.specs.Prelude.{◌≡◌};
ghost use Rattle.frac128.specs.Values.{value_of};
ghost use Rattle.lp_duality.specs.Duals.{is_below as is_below_number};
ghost use Rattle.simplex_exact.specs.Internal.Numbers.{turned as turned_number};

use frac128::cmp;
use std::cmp::Ordering;
use tableau::Frac;

/// Whether a fraction is below another one.
#[inline]
pub fn is_below(a: Frac, c: Frac) -> bool
    ensures { result ≡ is_below_number (value_of a) (value_of c) }
{
    cmp(a, c) == Ordering::Less
}

/// A fraction as it is, or negated.
#[inline]
pub fn turned(x: Frac, up: bool) -> Frac
    ensures { value_of result ≡ turned_number up (value_of x) }
{
    if up { x } else { x.negated() }
}
