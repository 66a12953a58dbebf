//! The certificate of dual prices.
ghost use Rattle.std.specs.Prelude.{◌≡◌, ◌≤◌, length, IfOk, IfNone, IfSome};
ghost use Rattle.dual_rays.specs.Certificates.{certificate_of_prices};
ghost use Rattle.dual_rays.specs.Meanings.{IsOfPrices, BoundsByPrices, HasNoCertificate};

use crate::denominators::least_denominator;
use crate::multipliers::multipliers;
use frac128::Frac;
use ip_defs::{Cert, Memory};
use lp_duality::Fracs;
use std::alloc::Global;

/// The certificate of fractions over their least common denominator.
pub fn certificate(alloc: Global, prices: &[Frac]) -> Result<Option<Cert>, Memory>
    requires { length prices.now ≤ 1024 }
    ensures { IfOk result (λ c. c ≡ certificate_of_prices prices.now) }
{
    let q = match least_denominator(prices) {
        Some(q) => q,
        None => return Ok(None),
    };
    match multipliers(alloc, q, prices)? {
        Some(y) => Ok(Some(Cert { q: q as i64, y })),
        None => Ok(None),
    }
}

/// The certificate of dual prices, one for each row. Its divisor is their least common denominator, and the multiplier of a row is the
/// divisor times its price; rows with the price 0 are left out. `None` is the answer exactly where the divisor or a multiplier exceeds
/// 2^36 in absolute value. The only error is out of memory.
///
/// Over a box without an empty column its leaf bound is the dual value of the prices, rounded up.
pub fn cert_of_prices(alloc: Global, prices: &Fracs) -> Result<Option<Cert>, Memory>
    requires { length prices.now ≤ 1024 }
    ensures exact { IfOk result (λ c. c ≡ certificate_of_prices prices.now) }
    ensures meaning { IfOk result (λ c. IfSome c (IsOfPrices prices.now)) }
    ensures none { IfOk result (λ c. IfNone c (HasNoCertificate prices.now)) }
    ensures bound { IfOk result (λ c. IfSome c (BoundsByPrices prices.now)) }
{
    certificate(alloc, prices.as_slice())
}
