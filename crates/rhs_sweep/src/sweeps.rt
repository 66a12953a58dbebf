//! Row sweeps.
ghost use Rattle.std.specs.Prelude.{◌≡◌, ◌^◌, ◌≤◌, [], IfErr, IfOk, None};
ghost use Rattle.std.specs.Int.RustNames.{unsigned_abs};
ghost use Rattle.ip_defs.specs.Lists.{Each};
ghost use Rattle.ip_model.specs.Sizes.{allowance, first_crossed};
ghost use Rattle.perturbation.specs.Lines.{IsSide};
ghost use Rattle.rhs_sweep.specs.Internal.Courses.{IsCourse};
ghost use Rattle.rhs_sweep.specs.Internal.Walks.{IsWalking};
ghost use Rattle.rhs_sweep.specs.RowStops.{AreAmpleFor, IsRowStop};
ghost use Rattle.rhs_sweep.specs.declared.stops.RowStop.TheVariants as Stop;
ghost use Rattle.sweep_proof.specs.RowRules.{row_rules};
ghost use Rattle.sweep_proof.specs.RowSweeps.{FitsPieces, IsExactRowSweep, IsWidening, IsWithinAt};
ghost use Rattle.sweep_proof.specs.declared.verdicts.SweepVerdict.TheVariants as Ends;

use crate::RowStop;
use crate::courses::Course;
use crate::walks::{Walk, begin, walk_on};
use branching::{Limits, Steps};
use ip_defs::Memory;
use ip_model::{IntModel, Place};
use std::alloc::Global;
use std::sync::ledger::Ledger;
use sweep_pieces::row_sweep_of;
use sweep_proof::RowSweep;

/// The sweep of a walk in which no solve waits: a piece for each run.
fn answer(alloc: Global, course: &Course, walk: Walk) -> Result<RowSweep, RowStop>
    requires course { IsCourse course.now.model.now course.now.dir.now course.now.limits course.now.steps_to }
    requires walking { IsWalking course.now.model.now course.now.dir.now course.now.limits course.now.steps_to walk }
    requires done { walk.waiting.items ≡ [] }
    ensures proved { IfOk result (λ s. row_rules course.now.model.now course.now.dir.now course.now.steps_to s.pieces ≡ Ends.Proved) }
    ensures fits { IfOk result (λ s. FitsPieces course.now.model.now s.pieces) }
    ensures memory { IfErr result (λ stop. stop ≡ Stop.Memory) }
{
    let Walk {
        solved,
        runs,
        run,
        ..
    } = walk;
    let mut runs = runs;
    match runs.push(run) {
        Ok(()) => {}
        Err(_) => return Err(RowStop::Memory),
    }
    match row_sweep_of(
        alloc,
        course.model,
        course.dir,
        course.steps_to,
        solved.made,
        runs.as_slice(),
    ) {
        Ok(sweep) => Ok(sweep),
        Err(Memory) => Err(RowStop::Memory),
    }
}

/// The sweep along a course.
fn swept<L: Ledger>(
    alloc: Global,
    course: &Course,
    steps: &mut Steps<L>,
) -> Result<RowSweep, RowStop>
    requires course { IsCourse course.now.model.now course.now.dir.now course.now.limits course.now.steps_to }
    ensures proved { IfOk result (λ s. row_rules course.now.model.now course.now.dir.now course.now.steps_to s.pieces ≡ Ends.Proved) }
    ensures fits { IfOk result (λ s. FitsPieces course.now.model.now s.pieces) }
    ensures stop { IfErr result (IsRowStop course.now.model.now course.now.dir.now course.now.steps_to course.now.limits) }
    ensures rises { steps.old ≤ steps.new }
{
    match begin(alloc, course, steps) {
        Ok(walk) => match walk_on(alloc, course, walk, steps) {
            Ok(walk) => answer(alloc, course, walk),
            Err(stop) => Err(stop),
        },
        Err(stop) => Err(stop),
    }
}

/// The exact optimal value of a model at each step from 0 to `steps_to` of a direction that widens its row sides.
///
/// Solves are made at the first and the last step, and half-way between two neighbouring steps whose values differ, until these are one
/// apart. So a sweep of few values takes few solves: at most 20 for each value, and two more. Where the values at both ends of a run are
/// the same, so are those between them, since values never rise. A piece claims the point of the solve at its first step, and its tree is
/// that of the solve at its last step.
///
/// All solves together are given `limits.nodes` nodes: each the nodes that those before it left. The sweep stops with `Budget` at a solve
/// that stops or for which nothing is left, with `Solves` where 10,000 solves were made and one more is wanted, and with `Memory` when out
/// of memory. The counter of steps never falls, whatever the answer.
pub fn sweep_rows<L: Ledger>(
    alloc: Global,
    model: &IntModel,
    dir: &[(Place, i64)],
    steps_to: u32,
    limits: Limits,
    steps: &mut Steps<L>,
) -> Result<RowSweep, RowStop>
    requires sides { Each (λ d. IsSide model.now d.0) dir.now }
    requires small { Each (λ d. unsigned_abs d.1 ≤ 2 ^ 62) dir.now }
    requires within { IsWithinAt model.now dir.now steps_to }
    requires widening { IsWidening dir.now }
    requires last { steps_to ≤ 10 ^ 6 }
    requires nodes { 1 ≤ limits.nodes }
    requires most { limits.nodes ≤ allowance model.now 1000000 }
    requires depth { limits.depth ≤ 800 }
    requires uncrossed { first_crossed model.now ≡ None }
    ensures proved { IfOk result (λ s. row_rules model.now dir.now steps_to s.pieces ≡ Ends.Proved) }
    ensures fits { IfOk result (λ s. FitsPieces model.now s.pieces) }
    ensures exact { IfOk result (λ s. IsExactRowSweep model.now dir.now steps_to s.pieces) }
    ensures stop { IfErr result (IsRowStop model.now dir.now steps_to limits) }
    ensures ends { AreAmpleFor model.now steps_to limits → IfErr result (λ stop. stop ≡ Stop.Memory) }
    ensures rises { steps.old ≤ steps.new }
{
    let _parts = model.parts();
    let course = Course {
        model,
        dir,
        steps_to,
        limits,
    };
    swept(alloc, &course, steps)
}
