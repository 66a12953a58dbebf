//! What is tried first in one direction: a change of two billion steps, or the limit of a number that is itself larger than that.
ghost use Rattle.std.specs.Prelude.{◌↔◌, ◌≡◌, ◌≤◌, IsTrue, length};
ghost use Rattle.ip_defs.specs.Limits.{IsWithinLimits};
ghost use Rattle.ip_model.specs.Places.{Exists};
ghost use Rattle.proof_tree.specs.Scratches.{FitsWalk};
ghost use Rattle.range_finder.specs.Internal.Asked.{IsAsked, IsMet};
ghost use Rattle.range_finder.specs.Internal.Tries.{IsTried};

use crate::asked::Asked;
use crate::goodness::is_good;
use crate::steps::{change_of, steps_to_limit};
use ip_defs::Parts;
use ip_model::Place;
use leaf_cert::Scratch;
use perturbation::number_at;
use std::alloc::Global;

/// One direction of a search for the ends of a range, with a change that was tried in it.
#[derive(Clone, Copy)]
pub(crate) struct FirstTry {
    /// Whether changes are upward.
    pub(crate) up: bool,
    /// How many steps there are to the limit of the number.
    pub(crate) most: u64,
    /// How many steps were tried.
    pub(crate) steps: u64,
    /// Whether the change by them is good.
    pub(crate) is_good: bool,
}

/// How many steps are tried first, of those to the limit: 2^31 at most, and all where the number itself is larger than that.
fn first_steps(parts: &Parts, place: Place, most: u64) -> u64
    requires limits { IsWithinLimits parts.now }
    requires exists { Exists parts.now place }
    ensures { result ≤ most }
{
    if number_at(parts, place).unsigned_abs() <= 1 << 31 {
        most.min(1 << 31)
    } else {
        most
    }
}

/// Tries the first change up or down.
pub(crate) fn first_try(
    alloc: Global,
    asked: &Asked<'_>,
    up: bool,
    scratch: &mut Scratch,
) -> FirstTry
    requires asked { IsAsked asked.now }
    requires met { IsMet asked.now }
    requires scratch { FitsWalk (length asked.now.model.now.columns) scratch.old }
    ensures tried { IsTried asked.now result }
    ensures up { result.up ≡ up }
    ensures scratch { FitsWalk (length asked.now.model.now.columns) scratch.new }
{
    let most = steps_to_limit(asked.model.parts(), asked.place, up);
    let steps = first_steps(asked.model.parts(), asked.place, most);
    FirstTry {
        up,
        most,
        steps,
        is_good: is_good(alloc, asked, change_of(up, steps), scratch),
    }
}
