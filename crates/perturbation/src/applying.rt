//! Edits of a model, in order.

ghost use Rattle.std.specs.Prelude.{◌≡◌, ◌<◌, ◌≤◌, ◌^◌, length};
ghost use Rattle.std.specs.Int.RustNames.{unsigned_abs};
ghost use Rattle.decimals.specs.Decimals.{IsBelowLarge};
ghost use Rattle.ip_defs.specs.Limits.{IsWithinLimits, exceeds};
ghost use Rattle.ip_model.specs.Places.{Exists, limit_of};
ghost use Rattle.perturbation.specs.Edits.{Answers, AreBelowLarge, by_number, changed_within, decimals_at as decimals_at_of};
ghost use Rattle.perturbation.specs.Edits.{edited as edited_of};
ghost use Rattle.perturbation.specs.Edits.{edited_by, new_number as new_number_of, written as written_of};

use crate::copies::{copied, made};
use crate::edits::{Change, Edit, EditError, PlaceError};
use crate::locating::place_in;
use crate::replacing::{number_at, replaced};
use decimals::{Number, scaled};
use ip_defs::Parts;
use ip_model::{IntModel, Place, has_many_entries};
use std::alloc::Global;

/// The written number of a change.
fn written(change: Change) -> Number
    ensures { result ≡ written_of change }
{
    match change {
        Change::Set(number) | Change::Add(number) => number,
    }
}

/// What a change makes of a number, where its own is `units` in the units of that number.
fn new_number(change: Change, units: i128, old: i64) -> i128
    requires { unsigned_abs units ≤ 2 ^ 126 }
    ensures { result ≡ new_number_of change units old }
{
    match change {
        Change::Set(_) => units,
        Change::Add(_) => i128::from(old) + units,
    }
}

/// The decimals of the units of the number at a place that exists.
pub fn decimals_at(parts: &Parts, place: Place) -> u8
    requires limits { IsWithinLimits parts.now }
    requires exists { Exists parts.now place }
    ensures { result ≡ decimals_at_of parts.now place }
{
    let rows = parts.rows.as_slice();
    match place {
        Place::Cost(_) => parts.cost_decimals,
        Place::Low(i) | Place::High(i) | Place::Coef(i, _) => rows[i as usize].decimals,
        Place::Lower(_) | Place::Upper(_) => 0,
    }
}

/// Whether a number exceeds the limit of a place.
pub fn exceeds_limit(place: Place, number: i128) -> bool
    ensures { result ≡ exceeds (limit_of place) number }
{
    let limit = match place {
        Place::Cost(_) | Place::Coef(_, _) => 1 << 40,
        Place::Low(_) | Place::High(_) => 1 << 62,
        Place::Lower(_) | Place::Upper(_) => 1 << 24,
    };
    number.unsigned_abs() > limit
}

/// A number of at most 2^62 in absolute value, in 64 bits.
pub fn narrowed(number: i128) -> i64
    requires { unsigned_abs number ≤ 2 ^ 62 }
    ensures { result ≡ number }
{
    number as i64
}

/// The program with another number at a place, if that and the count of coefficients are within their limits.
fn replaced_within(
    alloc: Global,
    parts: Parts,
    edit: u32,
    place: Place,
    number: i128,
) -> Result<Parts, EditError>
    requires exists { Exists parts place }
    ensures { Answers (changed_within parts edit place (λ old. number)) result }
{
    if exceeds_limit(place, number) {
        return Err(EditError::Limit { edit });
    }
    let parts = replaced(alloc, parts, place, narrowed(number))?;
    if has_many_entries(parts.rows.as_slice()) {
        return Err(EditError::Limit { edit });
    }
    Ok(parts)
}

/// The program after a change of the number at a place.
fn changed_by(
    alloc: Global,
    parts: Parts,
    edit: u32,
    place: Place,
    change: Change,
) -> Result<Parts, EditError>
    requires limits { IsWithinLimits parts }
    requires exists { Exists parts place }
    requires below { IsBelowLarge (written_of change) }
    ensures { Answers (by_number parts edit place change (written_of change)) result }
{
    let number = written(change);
    if let Number::Large { .. } = number {
        return Err(EditError::Limit { edit });
    }
    let units = match scaled(number, decimals_at(&parts, place)) {
        Some(units) => units,
        None => return Err(EditError::OffGrid { edit }),
    };
    let value = new_number(change, units, number_at(&parts, place));
    replaced_within(alloc, parts, edit, place, value)
}

/// The program after one edit, which has the number `number`.
fn edited(alloc: Global, parts: Parts, number: u32, edit: &Edit) -> Result<Parts, EditError>
    requires limits { IsWithinLimits parts }
    requires below { IsBelowLarge (written_of edit.now.change) }
    ensures { Answers (edited_of parts number edit.now) result }
{
    match place_in(parts.columns.as_slice(), parts.rows.as_slice(), &edit.datum) {
        Ok(place) => changed_by(alloc, parts, number, place, edit.change),
        Err(PlaceError::UnknownName) => Err(EditError::UnknownName { edit: number }),
        Err(PlaceError::NoSide) => Err(EditError::NoSide { edit: number }),
    }
}

/// The model after edits, which are made in order on a copy of the model. The first edit that is refused gives the error; of one edit
/// `UnknownName` and `NoSide` come before `OffGrid`, and that before `Limit`. Nothing but the named numbers changes; a coefficient that
/// becomes 0 leaves the list of its row. `Memory` alone says nothing of the edits.
pub fn apply(alloc: Global, model: &IntModel, edits: &[Edit]) -> Result<IntModel, EditError>
    requires count { length edits.now < 2 ^ 32 }
    requires below { AreBelowLarge edits.now }
    ensures { Answers (edited_by model.now edits.now) result }
{
    let mut parts = copied(alloc, model.parts())?;
    let mut number = 0;
    for edit in edits {
        number += 1;
        parts = match edited(alloc, parts, number, edit) {
            Ok(parts) => parts,
            Err(error) => return Err(error),
        };
    }
    match made(parts) {
        Some(model) => Ok(model),
        None => Err(EditError::Memory),
    }
}
