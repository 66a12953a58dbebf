//! The walk of a row sweep from left to right: runs of steps that are finished, the run at hand, and the solves that wait to its right.
ghost use Rattle.std.specs.Prelude.{◌≡◌, ◌≤◌, [], IfErr, IfOk, length};
ghost use Rattle.rhs_sweep.specs.Internal.Courses.{IsCourse};
ghost use Rattle.rhs_sweep.specs.Internal.Solving.{IsOneMore, IsStopAt};
ghost use Rattle.rhs_sweep.specs.Internal.Walks.{CanBeRead, HasMore, IsBegun, IsFirstRun, IsGapAt, IsLonger, IsWalking, IsWalkingTo};
ghost use Rattle.rhs_sweep.specs.Internal.Walks.{WaitsToo, turns_left};
ghost use Rattle.rhs_sweep.specs.declared.gaps.Gap.TheVariants as Gaps;
ghost use Rattle.rhs_sweep.specs.RowStops.{IsRowStop};
ghost use Rattle.rhs_sweep.specs.declared.stops.RowStop.TheVariants as Stop;
ghost use Rattle.perturbation.specs.Lines.{row_at};

use crate::RowStop;
use crate::courses::Course;
use crate::gaps::{Gap, gap_between};
use crate::solving::{Solved, solve_after};
use branching::Steps;
use ip_model::IntModel;
use std::alloc::Global;
use std::sync::ledger::Ledger;
use sweep_pieces::Run;
use sweep_solves::Mades;

/// What a walk has found. Solves are named by their numbers in the list of solves.
#[derive(Drop)]
pub(crate) struct Walk {
    /// The solves that were made.
    pub solved: Solved,
    /// The runs that are finished.
    pub runs: Vec<Run>,
    /// The run at hand, as far as it is known.
    pub run: Run,
    /// The solves to the right of it that wait, the leftmost last.
    pub waiting: Vec<usize>,
}

/// The walk with one more solve that waits, to the left of the others.
fn waiting_for(walk: Walk, number: usize) -> Result<Walk, RowStop>
    ensures ok { IfOk result (λ w. HasMore number walk w) }
    ensures err { IfErr result (λ stop. stop ≡ Stop.Memory) }
{
    let mut walk = walk;
    match walk.waiting.push(number) {
        Ok(()) => Ok(walk),
        Err(_) => Err(RowStop::Memory),
    }
}

/// The walk with the run at hand finished, and a new one at a solve.
fn begun_at(walk: Walk, next: usize) -> Result<Walk, RowStop>
    ensures ok { IfOk result (λ w. IsBegun next walk w) }
    ensures err { IfErr result (λ stop. stop ≡ Stop.Memory) }
{
    let mut walk = walk;
    let run = walk.run;
    match walk.runs.push(run) {
        Ok(()) => {
            walk.run = Run {
                first: next,
                last: next,
            };
            Ok(walk)
        }
        Err(_) => Err(RowStop::Memory),
    }
}

/// The walk with the run at hand longer, up to a solve.
fn longer(walk: Walk, last: usize) -> Walk
    ensures { IsLonger last walk result }
{
    let mut walk = walk;
    walk.run.last = last;
    walk
}

/// Makes the solve at step t, which waits then, to the left of the others.
fn solved_at<L: Ledger>(
    alloc: Global,
    course: &Course,
    t: u32,
    walk: Walk,
    steps: &mut Steps<L>,
) -> Result<Walk, RowStop>
    requires course { IsCourse course.now.model.now course.now.dir.now course.now.limits course.now.steps_to }
    requires t { t ≤ course.now.steps_to }
    requires left { walk.solved.left ≤ course.now.limits.nodes }
    requires most { length walk.solved.made ≤ 10000 }
    ensures more { IfOk result (λ w. IsOneMore (row_at course.now.model.now course.now.dir.now t) course.now.limits t
        walk.solved w.solved) }
    ensures waits { IfOk result (λ w. WaitsToo (length walk.solved.made) walk w) }
    ensures stop { IfErr result (IsStopAt (row_at course.now.model.now course.now.dir.now t) course.now.limits t walk.solved) }
    ensures rises { steps.old ≤ steps.new }
{
    let Walk {
        solved,
        runs,
        run,
        waiting,
    } = walk;
    let number = solved.made.as_slice().len();
    match solve_after(alloc, course, t, solved, steps) {
        Ok(solved) => waiting_for(
            Walk {
                solved,
                runs,
                run,
                waiting,
            },
            number,
        ),
        Err(stop) => Err(stop),
    }
}

/// What lies between the run at hand and a solve to its right.
fn gap_to(model: &IntModel, walk: &Walk, next: usize) -> Gap
    requires last { CanBeRead model.now walk.now.solved.made walk.now.run.last }
    requires next { CanBeRead model.now walk.now.solved.made next }
    ensures { IsGapAt model.now walk.now.solved.made walk.now.run.last next result }
{
    let made = walk.solved.made.as_slice();
    gap_between(model, &made[walk.run.last], &made[next])
}

/// The step half-way is solved, and then both solves wait.
fn halved<L: Ledger>(
    alloc: Global,
    course: &Course,
    t: u32,
    walk: Walk,
    next: usize,
    steps: &mut Steps<L>,
) -> Result<Walk, RowStop>
    requires course { IsCourse course.now.model.now course.now.dir.now course.now.limits course.now.steps_to }
    requires walking { IsWalkingTo course.now.model.now course.now.dir.now course.now.limits course.now.steps_to walk next }
    requires gap { IsGapAt course.now.model.now walk.solved.made walk.run.last next (Gaps.Wide t) }
    ensures walking { IfOk result (IsWalking course.now.model.now course.now.dir.now course.now.limits course.now.steps_to) }
    ensures fewer { IfOk result (λ w. turns_left w ≤ turns_left walk) }
    ensures stop { IfErr result (IsRowStop course.now.model.now course.now.dir.now course.now.steps_to course.now.limits) }
    ensures rises { steps.old ≤ steps.new }
{
    match waiting_for(walk, next) {
        Ok(walk) => solved_at(alloc, course, t, walk, steps),
        Err(stop) => Err(stop),
    }
}

/// One turn: the leftmost solve that waited is joined to the run at hand, or begins a new one, or waits on while the step half-way to it
/// is solved.
fn turn<L: Ledger>(
    alloc: Global,
    course: &Course,
    walk: Walk,
    next: usize,
    steps: &mut Steps<L>,
) -> Result<Walk, RowStop>
    requires course { IsCourse course.now.model.now course.now.dir.now course.now.limits course.now.steps_to }
    requires walking { IsWalkingTo course.now.model.now course.now.dir.now course.now.limits course.now.steps_to walk next }
    ensures walking { IfOk result (IsWalking course.now.model.now course.now.dir.now course.now.limits course.now.steps_to) }
    ensures fewer { IfOk result (λ w. turns_left w ≤ turns_left walk) }
    ensures stop { IfErr result (IsRowStop course.now.model.now course.now.dir.now course.now.steps_to course.now.limits) }
    ensures rises { steps.old ≤ steps.new }
{
    match gap_to(course.model, &walk, next) {
        Gap::Same => Ok(longer(walk, next)),
        Gap::Next => begun_at(walk, next),
        Gap::Wide(t) => halved(alloc, course, t, walk, next, steps),
    }
}

/// Walks until no solve waits.
pub(crate) fn walk_on<L: Ledger>(
    alloc: Global,
    course: &Course,
    walk: Walk,
    steps: &mut Steps<L>,
) -> Result<Walk, RowStop>
    requires course { IsCourse course.now.model.now course.now.dir.now course.now.limits course.now.steps_to }
    requires walking { IsWalking course.now.model.now course.now.dir.now course.now.limits course.now.steps_to walk }
    ensures walking { IfOk result (IsWalking course.now.model.now course.now.dir.now course.now.limits course.now.steps_to) }
    ensures done { IfOk result (λ w. w.waiting.items ≡ []) }
    ensures stop { IfErr result (IsRowStop course.now.model.now course.now.dir.now course.now.steps_to course.now.limits) }
    ensures rises { steps.old ≤ steps.new }
{
    let mut walk = walk;
    'turns: loop {
        match walk.waiting.pop() {
            Some(next) => {
                walk = match turn(alloc, course, walk, next, steps) {
                    Ok(walk) => walk,
                    Err(stop) => return Err(stop),
                };
            }
            None => return Ok(walk),
        }
    }
}

/// The solve at step 0, of which the run at hand is.
fn first_run<L: Ledger>(
    alloc: Global,
    course: &Course,
    steps: &mut Steps<L>,
) -> Result<Walk, RowStop>
    requires course { IsCourse course.now.model.now course.now.dir.now course.now.limits course.now.steps_to }
    ensures begun { IfOk result (IsFirstRun course.now.model.now course.now.dir.now course.now.limits course.now.steps_to) }
    ensures stop { IfErr result (IsRowStop course.now.model.now course.now.dir.now course.now.steps_to course.now.limits) }
    ensures rises { steps.old ≤ steps.new }
{
    let none = Solved {
        made: Mades::from_vec(Vec::new(alloc)),
        left: course.limits.nodes,
    };
    match solve_after(alloc, course, 0, none, steps) {
        Ok(solved) => Ok(Walk {
            solved,
            runs: Vec::new(alloc),
            run: Run { first: 0, last: 0 },
            waiting: Vec::new(alloc),
        }),
        Err(stop) => Err(stop),
    }
}

/// The solves at step 0 and at the last one.
pub(crate) fn begin<L: Ledger>(
    alloc: Global,
    course: &Course,
    steps: &mut Steps<L>,
) -> Result<Walk, RowStop>
    requires course { IsCourse course.now.model.now course.now.dir.now course.now.limits course.now.steps_to }
    ensures walking { IfOk result (IsWalking course.now.model.now course.now.dir.now course.now.limits course.now.steps_to) }
    ensures stop { IfErr result (IsRowStop course.now.model.now course.now.dir.now course.now.steps_to course.now.limits) }
    ensures rises { steps.old ≤ steps.new }
{
    match first_run(alloc, course, steps) {
        Ok(walk) => {
            if course.steps_to == 0 {
                Ok(walk)
            } else {
                solved_at(alloc, course, course.steps_to, walk, steps)
            }
        }
        Err(stop) => Err(stop),
    }
}
