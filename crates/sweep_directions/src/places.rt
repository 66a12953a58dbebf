//! The first test of directions: each names a side that the model has.

ghost use Rattle.std.specs.Prelude.{◌≡◌, ◌≤◌, ◌++◌, ◌∷◌, [], OnOk, length};
ghost use Rattle.perturbation.specs.Edits.{located};
ghost use Rattle.sweep_directions.specs.Directions.{Answers, no_place, placed_of, unless_fault};
ghost use Rattle.sweep_directions.specs.Internal.Sides.{IsPlace};

use ip_defs::{Listed, Memory};
use ip_model::{IntModel, Place};
use perturbation::{Datum, EditError, Number, PlaceError, locate};
use question_text::SideDirs;
use std::alloc::Global;

/// The sides that directions name, each with its number as written.
pub type Places = Listed<(Place, Number)>;

/// Appends an element to a list, unless memory runs out.
pub fn put<T: Drop>(list: &mut Listed<T>, item: T) -> Result<(), Memory>
    ensures { OnOk result (list.new ≡ list.old ++ item ∷ []) }
{
    list.push(item)?;
    Ok(())
}

/// The place of a datum, which direction `edit` names.
fn place_of(model: &IntModel, edit: u32, datum: &Datum) -> Result<Place, EditError>
    ensures { IsPlace edit (located model.now datum.now) result }
{
    match locate(model, datum) {
        Ok(place) => Ok(place),
        Err(PlaceError::UnknownName) => Err(EditError::UnknownName { edit }),
        Err(PlaceError::NoSide) => Err(EditError::NoSide { edit }),
    }
}

/// The sides of all directions, or the refusal of the first one that names none.
pub fn placed(alloc: Global, model: &IntModel, dirs: &SideDirs) -> Result<Places, EditError>
    requires { length (placed_of model.now dirs.now) ≤ 2048 }
    ensures { Answers (unless_fault (no_place model.now dirs.now) (placed_of model.now dirs.now)) result }
{
    let mut places = Places::from_vec(Vec::new(alloc));
    let mut edit = 0;
    for dir in dirs.as_slice() {
        edit += 1;
        let place = match place_of(model, edit, &dir.0) {
            Ok(place) => place,
            Err(error) => return Err(error),
        };
        put(&mut places, (place, dir.1))?;
    }
    Ok(places)
}
