//! The second test of directions: each number is whole in the units of its row.

ghost use Rattle.std.specs.Prelude.{◌≡◌, ◌≤◌, length};
ghost use Rattle.decimals.specs.Decimals.{IsBelowLarge};
ghost use Rattle.ip_defs.specs.Lists.{Each};
ghost use Rattle.perturbation.specs.Lines.{IsSide};
ghost use Rattle.sweep_directions.specs.Directions.{grid_fault as grid_fault_of, off_grid as off_grid_of, units_at};
ghost use Rattle.sweep_directions.specs.Internal.Sides.{IsPlaced};

use decimals::scaled;
use ip_model::{IntModel, Place};
use perturbation::{EditError, Number, decimals_at};

/// A number in the units of a side, where it is whole in them. A Large one never is.
pub fn units_of(model: &IntModel, place: Place, number: Number) -> Option<i128>
    requires side { IsSide model.now place }
    requires below { IsBelowLarge number }
    ensures { result ≡ units_at model.now (place, number) }
{
    scaled(number, decimals_at(model.parts(), place))
}

/// The refusal of direction `edit`, if its number is off the grid.
fn grid_fault(model: &IntModel, edit: u32, place: Place, number: Number) -> Option<EditError>
    requires side { IsSide model.now place }
    requires below { IsBelowLarge number }
    ensures { result ≡ grid_fault_of edit number (units_at model.now (place, number)) }
{
    if let Number::Large { .. } = number {
        return None;
    }
    match units_of(model, place, number) {
        Some(_) => None,
        None => Some(EditError::OffGrid { edit }),
    }
}

/// The refusal of the first direction whose number is off the grid.
pub fn off_grid(model: &IntModel, places: &[(Place, Number)]) -> Option<EditError>
    requires few { length places.now ≤ 2048 }
    requires placed { Each (IsPlaced model.now) places.now }
    ensures { result ≡ off_grid_of model.now places.now }
{
    let mut edit = 0;
    for (place, number) in places {
        edit += 1;
        if let Some(error) = grid_fault(model, edit, *place, *number) {
            return Some(error);
        }
    }
    None
}
