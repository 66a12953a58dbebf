//! The point of a right proposal as fractions.
ghost use Rattle.std.specs.Prelude.{◌≡◌, ◌≤◌, ◌<◌, ◌^◌, ◌↔◌, ℕ, IfOk, IfSome, IsSome, length, pos, ◌<ℤ◌};
ghost use Rattle.std.specs.Int.RustNames.{unsigned_abs};
ghost use Rattle.frac128.specs.Rationals.{rational};
ghost use Rattle.frac128.specs.Values.{value_of};
ghost use Rattle.ip_defs.specs.Limits.{IsArea};
ghost use Rattle.leaf_cert.specs.Columns.{AllSmall};
ghost use Rattle.lp_duality.specs.Relaxations.{numbers_of};
ghost use Rattle.slackness.specs.Points.{point_of, IsOptimal};
ghost use Rattle.slackness.specs.Proposals.{HasSmallDenominator, IsRight};

use crate::checks::is_optimal;
use crate::proposals::Proposal;
use frac128::{Frac, frac};
use ip_defs::{Area, Memory};
use ip_model::IntModel;
use lp_duality::Fracs;
use std::alloc::Global;

/// The fraction of a numerator and a positive denominator.
fn fraction(numerator: i128, denominator: i128) -> Frac
    requires denominator { HasSmallDenominator denominator }
    requires small { unsigned_abs numerator ≤ 2 ^ 74 }
    ensures { value_of result ≡ rational numerator denominator }
{
    frac(numerator, denominator)
}

/// Numerators over a denominator as fractions in lowest terms.
fn fractions(alloc: Global, numerators: &[i128], denominator: i128) -> Result<Fracs, Memory>
    requires denominator { HasSmallDenominator denominator }
    requires small { AllSmall (2 ^ 74) numerators.now }
    ensures size { IfOk result (λ x. length x ≡ length numerators.now) }
    ensures values { IfOk result (λ x. (j : ℕ) → j < length numerators.now → numbers_of x j ≡ point_of denominator numerators.now j) }
{
    let mut point = Vec::with_capacity(alloc, numerators.len())?;
    for numerator in numerators {
        point.push(fraction(*numerator, denominator))?;
    }
    Ok(Fracs::from_vec(point))
}

/// The point of a proposal as fractions, none exactly where the proposal is not right at a box. The point is one of the relaxation there,
/// and the certificate of the proposal bounds by just what it costs. `scratch` has a number for each column.
pub fn optimum(
    alloc: Global,
    model: &IntModel,
    area: &Area,
    proposal: &Proposal,
    scratch: &mut [i128],
) -> Result<Option<Fracs>, Memory>
    requires area { IsArea (length model.now.columns) area.now }
    requires scratch { length scratch.old ≡ length model.now.columns }
    ensures exact { IfOk result (λ o. IsSome o ↔ IsRight model.now area.now proposal.now) }
    ensures size { IfOk result (λ o. IfSome o (λ x. length x ≡ length model.now.columns)) }
    ensures optimal { IfOk result (λ o. IfSome o (λ x. IsOptimal model.now area.now (numbers_of x) proposal.now.cert)) }
{
    if !is_optimal(model, area, proposal, scratch) {
        return Ok(None);
    }
    let point = fractions(alloc, proposal.numerators.as_slice(), proposal.denominator)?;
    Ok(Some(point))
}
