//! Steps on fractions: a test for 0, and a number less a product.
ghost use Rattle.std.specs.Prelude.{◌≡◌, IfOk, Ok};
ghost use Rattle.frac128.specs.Fractions.{IsFraction};
ghost use Rattle.frac128.specs.Rationals.{sub as less, mul as times};
ghost use Rattle.frac128.specs.Values.{value_of};
ghost use Rattle.tableau.specs.Tables.{is_zero_fraction};
ghost use Rattle.tableau.specs.Numbers.{less_product};

use frac128::{Frac, Wide, mul, sub};

/// Whether a fraction is 0.
#[inline]
pub fn is_zero(x: Frac) -> bool
    ensures zero { result ≡ is_zero_fraction x }
    ensures fraction { IsFraction x.num x.den }
{
    x.num() == 0
}

/// A fraction less the product of two. A factor of 0 leaves it alone.
#[inline]
pub fn lessened(x: Frac, f: Frac, g: Frac) -> Result<Frac, Wide>
    ensures exact { result ≡ less_product x f g }
    ensures value { IfOk result (λ r. value_of r ≡ less (value_of x) (times (value_of f) (value_of g))) }
{
    let (first, second) = (is_zero(f), is_zero(g));
    if first || second {
        return unchanged(x);
    }
    match mul(f, g) {
        Ok(product) => sub(x, product),
        Err(Wide) => Err(Wide),
    }
}

/// A fraction as it is, of which the caller learns that it is one.
#[inline]
fn unchanged(x: Frac) -> Result<Frac, Wide>
    ensures same { result ≡ Ok x }
    ensures fraction { IsFraction x.num x.den }
{
    let _ = x.num();
    Ok(x)
}
