//! The third test of directions: each number, and the side that it moves, is within the limit of a side.

ghost use Rattle.std.specs.Prelude.{◌≡◌, ◌≤◌, ◌^◌, ◌+ℤ◌, ◌*ℤ◌, length, pos};
ghost use Rattle.std.specs.Int.RustNames.{unsigned_abs};
ghost use Rattle.decimals.specs.Decimals.{IsBelowLarge};
ghost use Rattle.ip_defs.specs.Limits.{exceeds};
ghost use Rattle.ip_defs.specs.Lists.{Each};
ghost use Rattle.perturbation.specs.Lines.{IsSide};
ghost use Rattle.sweep_directions.specs.Directions.{Answers, exceeds_at as exceeds_at_of, limit_fault, moves_at, past_limit};
ghost use Rattle.sweep_directions.specs.Directions.{units_at, unless_fault};
ghost use Rattle.sweep_directions.specs.Internal.Sides.{IsMove, IsPlaced};

use crate::Directions;
use crate::grids::units_of;
use crate::places::put;
use ip_model::{IntModel, Place, product, total_of};
use perturbation::{EditError, Number, number_at};
use std::alloc::Global;

/// Whether a number exceeds the limit of a side.
fn exceeds_side(number: i128) -> bool
    ensures { result ≡ exceeds (2 ^ 62) number }
{
    number.unsigned_abs() > 1 << 62
}

/// A side after a number of steps.
fn side_after(side: i64, step: i128, steps: u32) -> i128
    requires { unsigned_abs step ≤ 2 ^ 62 }
    ensures { result ≡ side +ℤ pos steps *ℤ step }
{
    total_of(i128::from(side), product(i128::from(steps), step))
}

/// Whether a move exceeds the limit of a side, or takes the side past it by the last step.
fn exceeds_at(model: &IntModel, steps: u32, place: Place, step: i128) -> bool
    requires { IsSide model.now place }
    ensures { result ≡ exceeds_at_of model.now steps place step }
{
    exceeds_side(step) || exceeds_side(side_after(number_at(model.parts(), place), step, steps))
}

/// The move of direction `edit` by one step, in units, or the refusal if that or the side exceeds its limit.
fn move_of(
    model: &IntModel,
    steps: u32,
    edit: u32,
    place: Place,
    number: Number,
) -> Result<i64, EditError>
    requires side { IsSide model.now place }
    requires below { IsBelowLarge number }
    ensures { IsMove (limit_fault model.now steps edit place (units_at model.now (place, number)))
        (units_at model.now (place, number)) result }
{
    let step = match units_of(model, place, number) {
        Some(step) => step,
        None => return Err(EditError::Limit { edit }),
    };
    if exceeds_at(model, steps, place, step) {
        return Err(EditError::Limit { edit });
    }
    Ok(step as i64)
}

/// The moves of sides, or the refusal of the first one that exceeds a limit.
pub fn moves(
    alloc: Global,
    model: &IntModel,
    places: &[(Place, Number)],
    steps: u32,
) -> Result<Directions, EditError>
    requires few { length places.now ≤ 2048 }
    requires placed { Each (IsPlaced model.now) places.now }
    ensures { Answers (unless_fault (past_limit model.now steps places.now) (moves_at model.now places.now)) result }
{
    let mut moves = Directions::from_vec(Vec::new(alloc));
    let mut edit = 0;
    for (place, number) in places {
        edit += 1;
        let step = match move_of(model, steps, edit, *place, *number) {
            Ok(step) => step,
            Err(error) => return Err(error),
        };
        put(&mut moves, (*place, step))?;
    }
    Ok(moves)
}
