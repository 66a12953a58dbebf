//! The models along a direction of row sides.

ghost use Rattle.std.specs.Prelude.{◌≡◌, ◌≤◌, ◌^◌, ◌+ℤ◌, ◌*ℤ◌, IfOk, pos};
ghost use Rattle.std.specs.Int.RustNames.{unsigned_abs};
ghost use Rattle.ip_defs.specs.Limits.{IsWithinLimits};
ghost use Rattle.ip_defs.specs.Lists.{Each};
ghost use Rattle.ip_model.specs.Places.{number_of};
ghost use Rattle.perturbation.specs.Lines.{IsLineAnswer, IsSide, index_of as index_of_of, row_at, row_line_of, side_moved};

use crate::applying::{exceeds_limit, narrowed};
use crate::copies::{copied, made};
use crate::edits::LineError;
use crate::replacing::{number_at, replaced};
use ip_defs::Parts;
use ip_model::{IntModel, Place, product, total_of};
use std::alloc::Global;

/// The number of the row of a place, or of its column where it names no row.
fn index_of(place: Place) -> u32
    ensures { result ≡ index_of_of place }
{
    match place {
        Place::Low(k)
        | Place::High(k)
        | Place::Coef(k, _)
        | Place::Cost(k)
        | Place::Lower(k)
        | Place::Upper(k) => k,
    }
}

/// A side after t steps.
fn side_at(side: i64, step: i64, t: u32) -> i128
    requires step { unsigned_abs step ≤ 2 ^ 62 }
    requires t { t ≤ 10 ^ 6 }
    ensures { result ≡ side +ℤ pos t *ℤ step }
{
    total_of(i128::from(side), product(i128::from(t), i128::from(step)))
}

/// The program with one side moved by t steps, or the row whose side exceeds the limit.
fn moved(alloc: Global, parts: Parts, place: Place, step: i64, t: u32) -> Result<Parts, LineError>
    requires limits { IsWithinLimits parts }
    requires side { IsSide parts place }
    requires step { unsigned_abs step ≤ 2 ^ 62 }
    requires t { t ≤ 10 ^ 6 }
    ensures { IsLineAnswer (side_moved parts place step t) result }
{
    let value = side_at(number_at(&parts, place), step, t);
    if exceeds_limit(place, value) {
        return Err(LineError::Limit {
            column: index_of(place),
        });
    }
    Ok(replaced(alloc, parts, place, narrowed(value))?)
}

/// The model after t steps of a direction of row sides: each side is moved by t times its number. `Limit` comes where a side exceeds
/// 2^62 in absolute value, with the row of the first such side in the order of the direction.
pub fn row_line(
    alloc: Global,
    model: &IntModel,
    dir: &[(Place, i64)],
    t: u32,
) -> Result<IntModel, LineError>
    requires sides { Each (λ d. IsSide model.now d.0) dir.now }
    requires steps { Each (λ d. unsigned_abs d.1 ≤ 2 ^ 62) dir.now }
    requires t { t ≤ 10 ^ 6 }
    ensures answer { IsLineAnswer (row_line_of model.now dir.now t) result }
    ensures model { IfOk result (λ n. n ≡ row_at model.now dir.now t) }
{
    let mut parts = copied(alloc, model.parts())?;
    for (place, step) in dir {
        parts = match moved(alloc, parts, *place, *step, t) {
            Ok(parts) => parts,
            Err(error) => return Err(error),
        };
    }
    match made(parts) {
        Some(model) => Ok(model),
        None => Err(LineError::Memory),
    }
}
