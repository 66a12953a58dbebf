//! What lies between two solves at steps that follow each other.
ghost use Rattle.std.specs.Prelude.{◌≡◌, ◌↔◌, ◌≤◌, ◌^◌, IsTrue, length, pos};
ghost use Rattle.proof_tree.specs.Verdicts.{HasLength};
ghost use Rattle.rhs_sweep.specs.Internal.Gaps.{IsGap};
ghost use Rattle.sweep_pieces.specs.Runs.{step_of};
ghost use Rattle.sweep_proof.specs.RowRules.{claimed_cost};

use ip_model::{IntModel, cost};
use proof_tree::Claim;
use sweep_solves::Made;

/// What lies between the steps of two solves.
#[derive(Clone, Copy)]
pub enum Gap {
    /// Their values are the same, and so are those between them.
    Same,
    /// Their values differ, and no step lies between.
    Next,
    /// Their values differ; the step half-way between them, rounded down.
    Wide(u32),
}

/// The value of a solve: the cost of its point, none where it claims emptiness.
fn value_of(model: &IntModel, made: &Made) -> Option<i128>
    requires { HasLength (length model.now.columns) made.now.proof.claim }
    ensures { result ≡ claimed_cost model.now made.now.proof.claim }
{
    match &made.proof.claim {
        Claim::Best(point) => Some(cost(model, point)),
        Claim::Empty => None,
    }
}

/// Whether two values are the same.
fn are_same(left: Option<i128>, right: Option<i128>) -> bool
    ensures { IsTrue result ↔ left ≡ right }
{
    match (left, right) {
        (Some(left), Some(right)) => left == right,
        (Some(_), None) => false,
        (None, Some(_)) => false,
        (None, None) => true,
    }
}

/// The step of a solve.
fn step_number(made: &Made) -> u32
    requires step { made.now.p ≡ pos (step_of made.now) }
    requires few { step_of made.now ≤ 10 ^ 6 }
    ensures { result ≡ step_of made.now }
{
    made.p as u32
}

/// What lies between the steps of two solves, the first at the lesser step.
pub(crate) fn gap_between(model: &IntModel, left: &Made, right: &Made) -> Gap
    requires first { HasLength (length model.now.columns) left.now.proof.claim }
    requires second { HasLength (length model.now.columns) right.now.proof.claim }
    requires from { left.now.p ≡ pos (step_of left.now) }
    requires to { right.now.p ≡ pos (step_of right.now) }
    requires few { step_of left.now ≤ 10 ^ 6 }
    requires last { step_of right.now ≤ 10 ^ 6 }
    ensures { IsGap model.now left.now right.now result }
{
    if are_same(value_of(model, left), value_of(model, right)) {
        return Gap::Same;
    }
    let from = step_number(left);
    let to = step_number(right);
    if to == from + 1 {
        Gap::Next
    } else {
        Gap::Wide((from + to) / 2)
    }
}
