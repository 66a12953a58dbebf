//! What a tableau proposes for a box.
ghost use Rattle.std.specs.Prelude.{◌≤◌, IfOk, length};
ghost use Rattle.dual_proposals.specs.Answers.{HasPointFor};

use crate::dual_steps::End;
use crate::tableaus::DualTableau;
use ip_defs::{Area, Cert, Memory};
use ip_model::IntModel;
use slackness::Proposal;
use std::alloc::Global;

/// What is proposed for a box.
#[derive(Debug, Drop)]
pub enum Proposed {
    /// A cheapest point of the relaxation, with the certificate that bounds by just its cost.
    Best(Proposal),
    /// A certificate that bounds at or above the cost to cut at.
    Cut(Cert),
    /// A certificate with the divisor 0 whose bound is infinite: no point is left.
    Empty(Cert),
    /// Nothing: the limit of steps was reached, or a number did not fit.
    GaveUp,
}

/// What is proposed, and how many steps it took.
#[derive(Debug, Drop)]
pub struct Answer {
    pub proposed: Proposed,
    pub steps: u32,
}

/// A proposal that may be missing.
fn best_of(tableau: &DualTableau, alloc: Global, columns: usize) -> Result<Proposed, Memory>
    ensures { IfOk result (HasPointFor columns) }
{
    let Some(point) = tableau.point(alloc, columns)? else {
        return Ok(Proposed::GaveUp);
    };
    match tableau.bound_certificate(alloc, false)? {
        Some(cert) => Ok(Proposed::Best(Proposal {
            numerators: point.numerators,
            denominator: point.denominator,
            cert,
        })),
        None => Ok(Proposed::GaveUp),
    }
}

/// What the end of a run proposes.
fn proposed_at(
    tableau: &DualTableau,
    alloc: Global,
    columns: usize,
    end: End,
) -> Result<Proposed, Memory>
    ensures { IfOk result (HasPointFor columns) }
{
    match end {
        End::Best => best_of(tableau, alloc, columns),
        End::Cut => match tableau.bound_certificate(alloc, true)? {
            Some(cert) => Ok(Proposed::Cut(cert)),
            None => Ok(Proposed::GaveUp),
        },
        End::Empty(leaving) => match tableau.ray(alloc, &leaving)? {
            Some(cert) => Ok(Proposed::Empty(cert)),
            None => Ok(Proposed::GaveUp),
        },
        End::OutOfSteps | End::TooWide => Ok(Proposed::GaveUp),
    }
}

/// Moves a living tableau to a box of its model, and makes at most `limit` dual steps there. With a cost to cut at, it ends as soon as the
/// bound, rounded up, is at least that cost.
///
/// Whatever is proposed has to be checked: nothing is promised but that a point has a number for each column, and that the steps are at
/// most `limit`. The tableau may be used again after each answer, also where memory ran out.
pub fn propose(
    alloc: Global,
    tableau: &mut DualTableau,
    model: &IntModel,
    area: &Area,
    limit: u32,
    cut_at: Option<i128>,
) -> Result<Answer, Memory>
    ensures steps { IfOk result (λ a. a.steps ≤ limit) }
    ensures point { IfOk result (λ a. HasPointFor (length model.now.columns) a.proposed) }
{
    tableau.move_to(model, area);
    let run = tableau.run(limit, cut_at);
    let columns = model.parts().columns.as_slice().len();
    let proposed = proposed_at(tableau, alloc, columns, run.end)?;
    Ok(Answer {
        proposed,
        steps: run.steps,
    })
}
