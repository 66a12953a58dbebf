//! One solve of a row sweep: that of the model after a number of steps, with the nodes that are left.
ghost use Rattle.std.specs.Prelude.{◌≡◌, ◌≤◌, ◌++◌, ◌∷◌, [], IfErr, IfOk, length};
ghost use Rattle.branching.specs.BestFirst.{IsBestFirst};
ghost use Rattle.branching.specs.Counts.{AreCountsWithin, nodes_of};
ghost use Rattle.branching.specs.Outcomes.{HasOneStuck, IsRightOutcome};
ghost use Rattle.perturbation.specs.Lines.{row_at};
ghost use Rattle.rhs_sweep.specs.Internal.Courses.{IsCourse};
ghost use Rattle.rhs_sweep.specs.Internal.Solving.{IsAdded, IsHeld, IsOneMore, IsStopAt, made_at, nothing_left};
ghost use Rattle.rhs_sweep.specs.declared.stops.RowStop.TheVariants as Stop;
ghost use Rattle.sweep_solves.specs.Solves.{with_nodes};

use crate::RowStop;
use crate::courses::Course;
use branching::{BudgetWhat, Limits, OpenTree, Outcome, Steps, Whys, node_count, solve};
use ip_defs::Memory;
use ip_model::IntModel;
use perturbation::{LineError, row_line};
use proof_tree::Proof;
use std::alloc::Global;
use std::sync::ledger::Ledger;
use sweep_solves::{Made, Mades};

/// The greatest number of solves of one sweep.
const MOST_SOLVES: usize = 10_000;

/// The solves that were made, in their order, and how many nodes they left.
#[derive(Drop)]
pub(crate) struct Solved {
    pub made: Mades,
    pub left: u32,
}

/// The model after t steps.
fn model_after(alloc: Global, course: &Course, t: u32) -> Result<IntModel, Memory>
    requires course { IsCourse course.now.model.now course.now.dir.now course.now.limits course.now.steps_to }
    requires t { t ≤ course.now.steps_to }
    ensures { IfOk result (λ n. n ≡ row_at course.now.model.now course.now.dir.now t) }
{
    match row_line(alloc, course.model, course.dir, t) {
        Ok(moved) => Ok(moved),
        Err(LineError::Memory) => Err(Memory),
        Err(LineError::Limit { .. }) => unreachable!(),
    }
}

/// How the search for the model after t steps ends, which is given a number of nodes.
fn outcome_after<L: Ledger>(
    alloc: Global,
    course: &Course,
    t: u32,
    nodes: u32,
    steps: &mut Steps<L>,
) -> Result<Outcome, Memory>
    requires course { IsCourse course.now.model.now course.now.dir.now course.now.limits course.now.steps_to }
    requires t { t ≤ course.now.steps_to }
    requires some { 1 ≤ nodes }
    requires most { nodes ≤ course.now.limits.nodes }
    ensures right { IfOk result (IsRightOutcome (row_at course.now.model.now course.now.dir.now t) (with_nodes nodes course.now.limits)) }
    ensures first { IfOk result (IsBestFirst (row_at course.now.model.now course.now.dir.now t)) }
    ensures stuck { IfOk result HasOneStuck }
    ensures counts { IfOk result (AreCountsWithin (with_nodes nodes course.now.limits)) }
    ensures rises { steps.old ≤ steps.new }
{
    let moved = model_after(alloc, course, t)?;
    let given = Limits {
        nodes,
        depth: course.limits.depth,
        pivots: course.limits.pivots,
    };
    solve(alloc, &moved, given, steps)
}

/// One more solve, at step t.
fn one_more(t: u32, proof: Proof, reasons: Whys, made: Mades, left: u32) -> Result<Solved, RowStop>
    ensures ok { IfOk result (λ s. (s.made ≡ made ++ made_at t proof reasons ∷ []) × (s.left ≡ left)) }
    ensures err { IfErr result (λ stop. stop ≡ Stop.Memory) }
{
    let mut made = made;
    let one = Made {
        p: i128::from(t),
        q: 1,
        proof,
        reasons,
    };
    match made.push(one) {
        Ok(()) => Ok(Solved { made, left }),
        Err(_) => Err(RowStop::Memory),
    }
}

/// What the outcome of the solve at step t makes of a sweep: one more solve, or a stop.
fn settled(t: u32, outcome: Outcome, solved: Solved) -> Result<Solved, RowStop>
    requires nodes { nodes_of outcome ≤ solved.left }
    requires few { solved.left ≤ 1000000 }
    ensures added { IfOk result (IsAdded t outcome solved) }
    ensures held { IfErr result (IsHeld t outcome solved) }
{
    let Solved { made, left } = solved;
    let used = node_count(&outcome);
    match outcome {
        Outcome::Best { proof, reasons } => one_more(t, proof, reasons, made, left - used),
        Outcome::Empty { proof, reasons } => one_more(t, proof, reasons, made, left - used),
        Outcome::Budget { what, grown, best } => Err(RowStop::Budget {
            what,
            p: i128::from(t),
            q: 1,
            grown,
            best,
            nodes: left,
            made,
        }),
    }
}

/// The stop at step t where nothing is left for its solve.
fn with_nothing_left(t: u32, made: Mades) -> RowStop
    ensures { result ≡ nothing_left t made }
{
    RowStop::Budget {
        what: BudgetWhat::Nodes,
        p: i128::from(t),
        q: 1,
        grown: OpenTree::Pending,
        best: None,
        nodes: 0,
        made,
    }
}

/// Makes the solve at step t, if one more may be made and nodes are left for it.
pub(crate) fn solve_after<L: Ledger>(
    alloc: Global,
    course: &Course,
    t: u32,
    solved: Solved,
    steps: &mut Steps<L>,
) -> Result<Solved, RowStop>
    requires course { IsCourse course.now.model.now course.now.dir.now course.now.limits course.now.steps_to }
    requires t { t ≤ course.now.steps_to }
    requires left { solved.left ≤ course.now.limits.nodes }
    requires most { length solved.made ≤ 10000 }
    ensures more { IfOk result (IsOneMore (row_at course.now.model.now course.now.dir.now t) course.now.limits t solved) }
    ensures stop { IfErr result (IsStopAt (row_at course.now.model.now course.now.dir.now t) course.now.limits t solved) }
    ensures rises { steps.old ≤ steps.new }
{
    if solved.made.as_slice().len() >= MOST_SOLVES {
        return Err(RowStop::Solves {
            p: i128::from(t),
            q: 1,
            made: solved.made,
        });
    }
    if solved.left == 0 {
        return Err(with_nothing_left(t, solved.made));
    }
    match outcome_after(alloc, course, t, solved.left, steps) {
        Ok(outcome) => settled(t, outcome, solved),
        Err(Memory) => Err(RowStop::Memory),
    }
}
