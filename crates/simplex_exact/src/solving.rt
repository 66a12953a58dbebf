//! The simplex from the start to its answer.
ghost use Rattle.std.specs.Prelude.{◌≡◌, ◌≤◌, ◌+◌, ◌-◌, false, length, IfOk, OnOk, OnErr, None, Ok, Err};
ghost use Rattle.std.specs.List.{list_any};
ghost use Rattle.ip_defs.specs.Certificates.{is_empty_side};
ghost use Rattle.ip_model.specs.Sizes.{first_crossed};
ghost use Rattle.simplex_laws.specs.Laws.{CanStep};
ghost use Rattle.simplex_laws.specs.Runs.{step};
ghost use Rattle.simplex_laws.specs.Steps.{is_final};
ghost use Rattle.simplex_exact.specs.declared.answers.LpAnswer.TheVariants.{Stopped};
ghost use Rattle.simplex_exact.specs.Answers.{IsLpAnswer};

use crate::LpAnswer;
use crate::choices::choose;
use crate::finals::read;
use ip_defs::{Area, Memory};
use ip_model::IntModel;
use simplex_laws::Next;
use std::alloc::Global;
use std::sync::ledger::Ledger;
use tableau::{Frac, Steps, Tableau, Wide, start};

/// Whether a tableau with this next step is final.
fn is_last(next: Next) -> bool
    ensures { result ≡ is_final next }
{
    match next {
        Next::FinalRow { row: _, up: _ } | Next::FinalPoint => true,
        Next::Pivot {
            row: _,
            var: _,
            leaving: _,
        }
        | Next::Flip { var: _ } => false,
    }
}

/// Takes a step, a pivot or a flip.
fn take<L: Ledger>(tableau: &mut Tableau, next: Next, steps: &mut Steps<L>) -> Result<(), Wide>
    requires unfinished { is_final next ≡ false }
    requires step { CanStep tableau.old next }
    ensures taken { OnOk result (step tableau.old next ≡ Ok tableau.new) }
    ensures wide { OnErr result (step tableau.old next ≡ Err (record {})) }
    ensures steps { steps.new ≡ steps.old + 1 }
{
    match next {
        Next::Pivot { row, var, leaving } => tableau.pivot(row, var, leaving, steps),
        Next::Flip { var } => {
            tableau.flip(var, steps);
            Ok(())
        }
        Next::FinalRow { row: _, up: _ } | Next::FinalPoint => unreachable!(),
    }
}

/// The answer of the linear program of a node within a number of steps, with the tableau at which it was found.
fn solve<L: Ledger>(
    alloc: Global,
    model: &IntModel,
    area: &Area,
    pivots: u32,
    steps: &mut Steps<L>,
) -> Result<(LpAnswer, Tableau), Memory>
    requires size { length area.now ≡ length model.now.columns }
    requires proper { list_any is_empty_side area.now ≡ false }
    requires uncrossed { first_crossed model.now ≡ None }
    ensures answer { IfOk result (λ r. IsLpAnswer model.now area.now (steps.new - steps.old) r.0) }
    ensures rises { steps.old ≤ steps.new }
    ensures steps { steps.new ≤ steps.old + pivots }
    ensures stopped { IfOk result (λ r. r.0 ≡ Stopped → steps.new ≡ steps.old + pivots) }
{
    let parts = model.parts();
    let columns = parts.columns.as_slice().len() as u32;
    let rows = parts.rows.as_slice().len() as u32;
    let count = (columns + rows) as usize;
    let mut tableau = start(alloc, model, area)?;
    let mut basic_rows = vec![in alloc; None; count]?;
    let mut values = vec![in alloc; Frac::from_whole(0); count]?;
    let mut taken = 0;
    loop {
        let next = match choose(
            &tableau,
            rows,
            basic_rows.as_mut_slice(),
            values.as_mut_slice(),
        ) {
            Ok(next) => next,
            Err(Wide) => return Ok((LpAnswer::Wide, tableau)),
        };
        if is_last(next) {
            let answer = read(alloc, &tableau, values.as_slice(), next, columns, rows)?;
            return Ok((answer, tableau));
        }
        if taken == pivots {
            return Ok((LpAnswer::Stopped, tableau));
        }
        match take(&mut tableau, next, steps) {
            Ok(()) => taken += 1,
            Err(Wide) => return Ok((LpAnswer::Wide, tableau)),
        }
    }
}

/// The linear program of a node: the least cost over its relaxation, by at most `pivots` pivots and flips. An area has one pair of sides
/// for each column of the model; no column of it is empty and no row is crossed.
///
/// The counter rises by one for each pivot and each flip, and by nothing else. `Best` and `Empty` are read off the tableau that the
/// counted steps reach, none before it being final; `Wide` is met at the last of them; `Stopped` comes after `pivots` steps, where the
/// tableau is not final. Where memory runs out the counter has risen by the steps that were made. That is the one error.
pub fn solve_lp<L: Ledger>(
    alloc: Global,
    model: &IntModel,
    area: &Area,
    pivots: u32,
    steps: &mut Steps<L>,
) -> Result<LpAnswer, Memory>
    requires size { length area.now ≡ length model.now.columns }
    requires proper { list_any is_empty_side area.now ≡ false }
    requires uncrossed { first_crossed model.now ≡ None }
    ensures answer { IfOk result (IsLpAnswer model.now area.now (steps.new - steps.old)) }
    ensures rises { steps.old ≤ steps.new }
    ensures steps { steps.new ≤ steps.old + pivots }
    ensures stopped { IfOk result (λ a. a ≡ Stopped → steps.new ≡ steps.old + pivots) }
{
    match solve(alloc, model, area, pivots, steps) {
        Ok((answer, _)) => Ok(answer),
        Err(memory) => Err(memory),
    }
}
