//! The certificate of a dual ray.
ghost use Rattle.std.specs.Prelude.{◌≡◌, ◌≢◌, ◌≤◌, length, pos, IfOk, IfNone, IfSome, MatchOption, option_map};
ghost use Rattle.frac128.specs.Values.{value_of};
ghost use Rattle.frac128.specs.Rationals.{quotient};
ghost use Rattle.dual_rays.specs.Certificates.{certificate_of_ray, values};
ghost use Rattle.dual_rays.specs.Meanings.{IsOfRay, BoundsByRay, HasNoRay};
ghost use Rattle.dual_rays.specs.Internal.Quotients.{AreQuotients, IsWide, first_absolute as first_absolute_of};

use crate::prices::certificate;
use frac128::{Frac, Wide, div};
use ip_defs::{Cert, Memory, Multipliers};
use lp_duality::Fracs;
use std::alloc::Global;

/// The absolute value of the first number that is not 0.
fn first_absolute(ray: &[Frac]) -> Option<Frac>
    ensures value { option_map value_of result ≡ first_absolute_of (values ray.now) }
    ensures present { IfSome result (λ x. x.num ≢ pos 0) }
{
    for number in ray {
        if number.num() != 0 {
            return Some(number.absolute());
        }
    }
    None
}

/// A quotient, none where it is wide.
fn over(x: Frac, divisor: Frac) -> Option<Frac>
    requires { divisor.num ≢ pos 0 }
    ensures { MatchOption result (IsWide (quotient (value_of x) (value_of divisor)))
        (λ r. value_of r ≡ quotient (value_of x) (value_of divisor)) }
{
    let _ = (x.num(), divisor.num());
    match div(x, divisor) {
        Ok(quotient) => Some(quotient),
        Err(Wide) => None,
    }
}

/// Each number divided by the same divisor, none where a quotient is wide.
fn quotients(alloc: Global, ray: &[Frac], divisor: Frac) -> Result<Option<Fracs>, Memory>
    requires { divisor.num ≢ pos 0 }
    ensures { IfOk result (AreQuotients (values ray.now) (value_of divisor)) }
{
    let mut quotients = Fracs::from_vec(Vec::with_capacity(alloc, ray.len())?);
    for number in ray {
        match over(*number, divisor) {
            Some(quotient) => quotients.push(quotient)?,
            None => return Ok(None),
        }
    }
    Ok(Some(quotients))
}

/// The certificate of a ray. Its numbers are first divided by the absolute value of the first that is not 0: the quotients have their
/// least whole multiple at their least common denominator, which is then the absolute value of a multiplier.
fn ray_certificate(alloc: Global, ray: &[Frac]) -> Result<Option<Cert>, Memory>
    requires { length ray.now ≤ 1024 }
    ensures { IfOk result (λ c. c ≡ certificate_of_ray ray.now) }
{
    let divisor = match first_absolute(ray) {
        Some(divisor) => divisor,
        None => {
            return Ok(Some(Cert {
                q: 0,
                y: Multipliers::from_vec(Vec::new(alloc)),
            }));
        }
    };
    let numbers = match quotients(alloc, ray, divisor)? {
        Some(numbers) => numbers,
        None => return Ok(None),
    };
    match certificate(alloc, numbers.as_slice())? {
        Some(cert) => Ok(Some(Cert { q: 0, y: cert.y })),
        None => Ok(None),
    }
}

/// The certificate of a dual ray, one number for each row, not all 0. Its divisor is 0, and its multipliers are the least positive
/// multiple of the ray in whole numbers, which have no common divisor; rows with 0 are left out. `None` is the answer exactly where a
/// multiplier exceeds 2^36 in absolute value. The only error is out of memory.
///
/// Over a box where the dual value of the ray is positive its leaf bound is infinite.
pub fn cert_of_ray(alloc: Global, ray: &Fracs) -> Result<Option<Cert>, Memory>
    requires { length ray.now ≤ 1024 }
    ensures exact { IfOk result (λ c. c ≡ certificate_of_ray ray.now) }
    ensures meaning { IfOk result (λ c. IfSome c (IsOfRay ray.now)) }
    ensures none { IfOk result (λ c. IfNone c (HasNoRay ray.now)) }
    ensures bound { IfOk result (λ c. IfSome c (BoundsByRay ray.now)) }
{
    ray_certificate(alloc, ray.as_slice())
}
