//! The check of a proposal.
ghost use Rattle.std.specs.Prelude.{◌≡◌, ◌↔◌, IsTrue, length, pos, ◌<ℤ◌};
ghost use Rattle.ip_defs.specs.Limits.{IsArea, IsCert, IsWithinLimits};
ghost use Rattle.slackness.specs.Points.{IsOptimal};
ghost use Rattle.slackness.specs.Proposals.{point_of_proposal, IsRight, HasSmallDenominator};
ghost use Rattle.slackness.specs.Tight.{IsTight};

use crate::columns::are_tight;
use crate::proposals::Proposal;
use crate::rows::are_within_and_paid;
use ip_defs::{Area, Cert, Parts};
use ip_model::IntModel;
use leaf_cert::{cert_ok, take_rows};

/// The greatest denominator of a proposal: a numerator within its box has 74 bits then, and the value of a row 126.
const LARGEST_DENOMINATOR: i128 = 1 << 50;

/// Whether a denominator is positive and within its limit.
#[inline]
fn denominator_ok(denominator: i128) -> bool
    ensures { IsTrue result ↔ HasSmallDenominator denominator }
{
    0 < denominator && denominator <= LARGEST_DENOMINATOR
}

/// Whether a divisor is positive: with 0 a certificate is a ray, which bounds no cost.
#[inline]
fn is_positive(q: i64) -> bool
    ensures { IsTrue result ↔ pos 0 <ℤ q }
{
    0 < q
}

/// Whether a point over a small denominator lies in the box and within the sides of the rows, and stands at the sides that a certificate
/// with a positive divisor pays.
fn is_tight(
    parts: &Parts,
    area: &[(i64, i64)],
    denominator: i128,
    point: &[i128],
    cert: &Cert,
    taken: &mut [i128],
) -> bool
    requires limits { IsWithinLimits parts.now }
    requires cert { IsCert (length parts.now.rows) cert.now }
    requires area { IsArea (length parts.now.columns) area.now }
    requires denominator { HasSmallDenominator denominator }
    requires point { length point.now ≡ length parts.now.columns }
    requires taken { length taken.old ≡ length parts.now.columns }
    ensures { IsTrue result ↔ IsTight parts.now area.now denominator point.now cert.now }
{
    if !is_positive(cert.q) {
        return false;
    }
    let y = cert.y.as_slice();
    take_rows(parts, y, taken);
    if !are_tight(parts, cert.q, taken, area, denominator, point) {
        return false;
    }
    are_within_and_paid(parts, y, denominator, point)
}

/// Whether a proposal is right at a box.
fn is_right(parts: &Parts, area: &[(i64, i64)], proposal: &Proposal, scratch: &mut [i128]) -> bool
    requires limits { IsWithinLimits parts.now }
    requires area { IsArea (length parts.now.columns) area.now }
    requires scratch { length scratch.old ≡ length parts.now.columns }
    ensures { IsTrue result ↔ IsRight parts.now area.now proposal.now }
{
    let point = proposal.numerators.as_slice();
    if point.len() != scratch.len() || !denominator_ok(proposal.denominator) {
        return false;
    }
    if !cert_ok(&proposal.cert, parts.rows.as_slice().len() as u32) {
        return false;
    }
    is_tight(
        parts,
        area,
        proposal.denominator,
        point,
        &proposal.cert,
        scratch,
    )
}

/// Whether a proposal is right at a box: its point is one of the relaxation there, and its certificate bounds by just what the point
/// costs.
///
/// Nothing is asked of the proposal before. It is right exactly where its denominator lies between 1 and 2^50, its certificate is within
/// the limits and has a positive divisor, and point and certificate meet the lines of complementary slackness. `scratch` has a number for
/// each column; what the numbers are before and after does not matter.
pub fn is_optimal(model: &IntModel, area: &Area, proposal: &Proposal, scratch: &mut [i128]) -> bool
    requires area { IsArea (length model.now.columns) area.now }
    requires scratch { length scratch.old ≡ length model.now.columns }
    ensures exact { IsTrue result ↔ IsRight model.now area.now proposal.now }
    ensures optimal { IsTrue result → IsOptimal model.now area.now (point_of_proposal proposal.now) proposal.now.cert }
{
    is_right(model.parts(), area.as_slice(), proposal, scratch)
}
