//! What a range question asks for: the place of a number and an aim, or why the question is refused.

ghost use Rattle.std.specs.Prelude.{◌≡◌, ◌≤◌, IfErr, IfOk, Err, Ok, length};
ghost use Rattle.ip_model.specs.Places.{Exists};
ghost use Rattle.proof_tree.specs.Verdicts.{HasLength};
ghost use Rattle.question_text.specs.QuestionFiles.{IsKeptBelow};
ghost use Rattle.range_finder.specs.Aims.{HasCoordinates, plain_aim};
ghost use Rattle.tree_replies.specs.Internal.{IsAim, IsAskedRange};
ghost use Rattle.tree_replies.specs.Refusals.{aim_of as aim_of_claim, asked_of, kept_number};

use crate::refusals::Refusal;
use decimals::{Number, scaled};
use ip_model::{IntModel, Place};
use perturbation::{Datum, EditError, PlaceError, locate};
use proof_tree::Claim;
use question_text::AimText;
use range_finder::Aim;

/// The number to keep, in units of the costs.
fn kept<'a>(number: Number, decimals: u8) -> Result<Aim<'a>, Refusal>
    requires decimals { decimals ≤ 9 }
    requires below { IsKeptBelow (AimText.Keep number) }
    ensures { IsAim (kept_number decimals number) result }
{
    if let Number::Large { .. } = number {
        return Err(Refusal::Edit(EditError::Limit { edit: 0 }));
    }
    match scaled(number, decimals) {
        Some(units) => Ok(Aim::Keep(units)),
        None => Err(Refusal::Edit(EditError::OffGrid { edit: 0 })),
    }
}

/// The aim that is asked for of a claim, or why the question is refused.
fn aim_of<'a>(decimals: u8, claim: &'a Claim, aim: AimText) -> Result<Aim<'a>, Refusal>
    requires decimals { decimals ≤ 9 }
    requires below { IsKeptBelow aim }
    ensures { IsAim (aim_of_claim decimals claim.now aim) result }
{
    match aim {
        AimText::Best => match claim {
            Claim::Best(point) => Ok(Aim::StayBest(point)),
            Claim::Empty => Err(Refusal::NoBest),
        },
        AimText::Keep(number) => kept(number, decimals),
    }
}

/// The place and the aim of a range that is asked of a claim, or why the question is refused.
pub fn asked_range<'a>(
    model: &IntModel,
    claim: &'a Claim,
    datum: &Datum,
    aim: AimText,
) -> Result<(Place, Aim<'a>), Refusal>
    requires below { IsKeptBelow aim }
    ensures { IsAskedRange (asked_of model.now claim.now datum.now aim) result }
{
    match locate(model, datum) {
        Ok(place) => match aim_of(model.parts().cost_decimals, claim, aim) {
            Ok(aim) => Ok((place, aim)),
            Err(why) => Err(why),
        },
        Err(PlaceError::UnknownName) => Err(Refusal::Edit(EditError::UnknownName { edit: 0 })),
        Err(PlaceError::NoSide) => Err(Refusal::Edit(EditError::NoSide { edit: 0 })),
    }
}
