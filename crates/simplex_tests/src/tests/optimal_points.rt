//! Proposals that are right and wrong.
use crate::tests::programs::are_fractions;
use dual_rays::Fracs;
use ip_defs::{Area, Cert, Memory, Multipliers};
use ip_model::IntModel;
use sample_models::{SampleError, is_box, three_rows};
use slackness::{Numerators, Proposal, optimum};
use std::alloc::{Alloc, AllocError, Global};

/// The end of the first column in the box of the three rows; the numerators and the denominator of a proposal; the divisor and the
/// multipliers of its certificate; and its point, none where the proposal is wrong there.
type Case<'a> = (
    i64,
    (&'a [i128], i128),
    (i64, &'a [(u32, i64)]),
    Option<&'a [(i128, i128)]>,
);

/// The proposal of a case.
fn proposal_of(alloc: Global, case: &Case<'_>) -> Result<Proposal, Memory> {
    let (_, (numerators, denominator), (divisor, multipliers), _) = *case;
    let numerators = Vec::from_slice(alloc, numerators)?;
    let multipliers = Vec::from_slice(alloc, multipliers)?;
    Ok(Proposal {
        numerators: Numerators::from_vec(numerators),
        denominator,
        cert: Cert {
            q: divisor,
            y: Multipliers::from_vec(multipliers),
        },
    })
}

/// Whether a point is the expected one.
fn is_expected(point: &Option<Fracs>, expected: Option<&[(i128, i128)]>) -> bool {
    match (point, expected) {
        (Some(point), Some(pairs)) => are_fractions(point, pairs),
        (None, None) => true,
        (Some(_), None) | (None, Some(_)) => false,
    }
}

/// The point of a proposal over a box, none where the proposal is wrong. The answer for what is no box is `NoModel`.
fn point_of(
    alloc: Global,
    model: &IntModel,
    area: &Area,
    proposal: &Proposal,
) -> Result<Option<Fracs>, SampleError> {
    if !is_box(area, model.parts().columns.as_slice().len()) {
        return Err(SampleError::NoModel);
    }
    let mut scratch = vec![in alloc; 0; area.as_slice().len()]?;
    Ok(optimum(alloc, model, area, proposal, scratch.as_mut_slice())?)
}

/// Whether a proposal has the expected point over a box.
fn is_judged_over(
    alloc: Global,
    model: &IntModel,
    area: &Area,
    proposal: &Proposal,
    expected: Option<&[(i128, i128)]>,
) -> bool {
    match point_of(alloc, model, area, proposal) {
        Ok(point) => is_expected(&point, expected),
        Err(_) => false,
    }
}

/// The box whose first column ends at `high`.
fn area_of(alloc: Global, high: i64) -> Result<Area, AllocError> {
    Ok(Area::from_vec(Vec::from_slice(alloc, &[(0, high), (0, 10), (0, 10)])?))
}

/// Whether a proposal has the point of its case.
fn is_judged_by(alloc: Global, model: &IntModel, proposal: &Proposal, case: &Case<'_>) -> bool {
    match area_of(alloc, case.0) {
        Ok(area) => is_judged_over(alloc, model, &area, proposal, case.3),
        Err(_) => false,
    }
}

/// Whether the proposal of a case has its point.
fn is_judged_for(alloc: Global, model: &IntModel, case: &Case<'_>) -> bool {
    match proposal_of(alloc, case) {
        Ok(proposal) => is_judged_by(alloc, model, &proposal, case),
        Err(_) => false,
    }
}

/// Whether the proposal of a case has its point for the three rows.
fn is_judged(alloc: Global, case: &Case<'_>) -> bool {
    match three_rows(alloc) {
        Ok(model) => is_judged_for(alloc, &model, case),
        Err(_) => false,
    }
}

const RIGHT: [Case; 2] = [
    (
        10,
        (&[4, 0, 2], 2),
        (3, &[(0, -3), (2, -3)]),
        Some(&[(2, 1), (0, 1), (1, 1)]),
    ),
    (
        1,
        (&[2, 0, 5], 2),
        (2, &[(2, -3)]),
        Some(&[(1, 1), (0, 1), (5, 2)]),
    ),
];

/// A certificate that bounds by less than the cost, and a point that is too short.
const WRONG: [Case; 2] = [
    (10, (&[2, 0, 1], 1), (1, &[(0, -1), (2, -2)]), None),
    (10, (&[2, 0], 1), (1, &[(0, -1), (2, -1)]), None),
];

#[test]
fn right_proposals(rt: HostRuntime) -> Result<(), SampleError> {
    for case in &RIGHT {
        assert!(rt; is_judged(rt.alloc(), case));
    }
    Ok(())
}

#[test]
fn wrong_proposals(rt: HostRuntime) -> Result<(), SampleError> {
    for case in &WRONG {
        assert!(rt; is_judged(rt.alloc(), case));
    }
    Ok(())
}
