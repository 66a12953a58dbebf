//! The sides that the directions of a sweep move in a model, and by how much.

ghost use Rattle.std.specs.Prelude.{◌≡◌, ◌≤◌, IfOk, length, map};
ghost use Rattle.ip_defs.specs.Lists.{Each};
ghost use Rattle.mps_defs.specs.Lists.{AreDistinct};
ghost use Rattle.question_text.specs.SweepFiles.{IsFollowable, MovesOutwards, moved_by, side_name};
ghost use Rattle.question_text.specs.declared.sweeps.Sweep.TheVariants as Swept;
ghost use Rattle.sweep_directions.specs.Directions.{Answers, IsDirection, directed as directed_of, placed_of};
ghost use Rattle.sweep_directions.specs.Internal.Sides.{IsPlaced};

use crate::bounds::moves;
use crate::grids::off_grid;
use crate::places::placed;
use ip_defs::Listed;
use ip_model::{IntModel, Place};
use perturbation::EditError;
use question_text::SideDirs;
use std::alloc::Global;

/// The sides of a model that a sweep moves, each with its move at one step in the units of its row.
pub type Directions = Listed<(Place, i64)>;

/// Directions of different sides name at most two sides of each row, all of which the model has.
fn are_few(model: &IntModel, dirs: &SideDirs)
    requires outwards { Each MovesOutwards dirs.now }
    requires distinct { AreDistinct (map (λ d. side_name d.0) dirs.now) }
    ensures few { length (placed_of model.now dirs.now) ≤ 2048 }
    ensures placed { Each (IsPlaced model.now) (placed_of model.now dirs.now) }
{
    let _parts = model.parts();
}

/// The moves of directions, or their refusal.
fn directed(
    alloc: Global,
    model: &IntModel,
    dirs: &SideDirs,
    steps: u32,
) -> Result<Directions, EditError>
    requires outwards { Each MovesOutwards dirs.now }
    requires distinct { AreDistinct (map (λ d. side_name d.0) dirs.now) }
    ensures { Answers (directed_of model.now dirs.now steps) result }
{
    are_few(model, dirs);
    let places = match placed(alloc, model, dirs) {
        Ok(places) => places,
        Err(error) => return Err(error),
    };
    if let Some(error) = off_grid(model, places.as_slice()) {
        return Err(error);
    }
    moves(alloc, model, places.as_slice(), steps)
}

/// The directions of a sweep of `steps` steps in a model: the place of each side, and its number in the units of its row, in the order
/// of the directions. They are refused by three tests, each of which goes over all directions in their order before the next begins. The
/// error is that of the first direction that fails, and `edit` is its number, counted from 1:
///
/// - `UnknownName` where no row has the name, `NoSide` where the row lacks the side;
/// - `OffGrid` where a number that is not Large is not whole in the units of its row;
/// - `Limit` where the number is Large or exceeds 2^62 in those units, or the side does so after the last step.
///
/// `Memory` alone says nothing of the directions.
pub fn row_directions(
    alloc: Global,
    model: &IntModel,
    dirs: &SideDirs,
    steps: u32,
) -> Result<Directions, EditError>
    requires followable { IsFollowable (Swept.Rows steps dirs.now) }
    requires distinct { AreDistinct (moved_by (Swept.Rows steps dirs.now)) }
    ensures directed { Answers (directed_of model.now dirs.now steps) result }
    ensures count { IfOk result (λ d. length d ≡ length dirs.now) }
    ensures direction { IfOk result (IsDirection model.now steps) }
{
    directed(alloc, model, dirs, steps)
}
