//! Allowable ranges of numbers.
ghost use Rattle.std.specs.Prelude.{◌≡◌, ◌↔◌, IfSome, IsTrue, ℤ, pos, true, false, ◌≤ℤ◌, length};
ghost use Rattle.ip_model.specs.Places.{Exists, raised};
ghost use Rattle.proof_tree.specs.Scratches.{FitsWalk};
ghost use Rattle.proof_tree.specs.Trees.{FitsModel, plain};
ghost use Rattle.proof_tree.specs.Within.{IsTreeWithin};
ghost use Rattle.range_laws.specs.Laws.{Holds};
ghost use Rattle.range_laws.specs.Ranges.{IsRange};
ghost use Rattle.range_finder.specs.Aims.{HasCoordinates, plain_aim};
ghost use Rattle.range_finder.specs.Internal.Asked.{IsAsked, IsGood, IsMet};
ghost use Rattle.range_finder.specs.Internal.Tries.{IsTried};

use crate::aims::Aim;
use crate::asked::Asked;
use crate::ends::good_steps;
use crate::goodness::{is_good, is_met};
use crate::steps::change_of;
use crate::tries::{FirstTry, first_try};
use ip_model::{IntModel, Place};
use leaf_cert::Scratch;
use proof_tree::Tree;
use std::alloc::Global;

/// Whether the change 0 is good: so it is where a change down and one up are good, since good changes are a run.
fn is_good_now(
    alloc: Global,
    asked: &Asked<'_>,
    down: FirstTry,
    up: FirstTry,
    scratch: &mut Scratch,
) -> bool
    requires asked { IsAsked asked.now }
    requires met { IsMet asked.now }
    requires down { IsTried asked.now down }
    requires falls { down.up ≡ false }
    requires up { IsTried asked.now up }
    requires rises { up.up ≡ true }
    requires scratch { FitsWalk (length asked.now.model.now.columns) scratch.old }
    ensures now { IsTrue result ↔ IsGood asked.now (pos 0) }
    ensures scratch { FitsWalk (length asked.now.model.now.columns) scratch.new }
{
    if down.is_good && up.is_good {
        return true;
    }
    is_good(alloc, asked, 0, scratch)
}

/// The range of what is asked.
fn range_of(alloc: Global, asked: &Asked<'_>, scratch: &mut Scratch) -> Option<(i128, i128)>
    requires asked { IsAsked asked.now }
    requires point { HasCoordinates (length asked.now.model.now.columns) (plain_aim asked.now.aim) }
    requires scratch { FitsWalk (length asked.now.model.now.columns) scratch.old }
    ensures range { IsRange asked.now.model.now (plain asked.now.tree.now) asked.now.place (plain_aim asked.now.aim) result }
    ensures scratch { FitsWalk (length asked.now.model.now.columns) scratch.new }
{
    let _parts = asked.model.parts();
    if !is_met(asked) {
        return None;
    }
    let first_down = first_try(alloc, asked, false, scratch);
    let first_up = first_try(alloc, asked, true, scratch);
    if !is_good_now(alloc, asked, first_down, first_up, scratch) {
        return None;
    }
    let down = good_steps(alloc, asked, first_down, scratch);
    let up = good_steps(alloc, asked, first_up, scratch);
    Some((change_of(false, down), change_of(true, up)))
}

/// The allowable range of the number at a place that exists: the longest run of good changes around 0. A change is good where the changed
/// number is within its limit and the aim holds in the changed model, as far as the bound of the tree there says: a number to keep is at
/// most the bound, or the point is feasible there and costs at most the bound. None is the answer exactly where the change 0 is not good.
/// A point has one coordinate for each column; the tree fits the model, and may have been made for another one.
///
/// Each end is found by trying changes, with one walk through the tree for each, and no changed model is made: first 2^31 steps, then the limit
/// of the number where these are good, and else steps that grow by squares until one is bad, and middles. A range whose ends are near takes
/// few walks, and none takes more than 128. Good changes are a run, after the idea of inference-based sensitivity (Schrage and Wolsey 1985;
/// Dawande and Hooker 2000).
/// Allocates nothing: the allocator makes the empty box that stands in while a walk has the scratch's.
pub fn range(
    alloc: Global,
    model: &IntModel,
    tree: &Tree,
    place: Place,
    aim: Aim<'_>,
    scratch: &mut Scratch,
) -> Option<(i128, i128)>
    requires limits { IsTreeWithin (plain tree.now) }
    requires fits { FitsModel model.now (plain tree.now) }
    requires exists { Exists model.now place }
    requires point { HasCoordinates (length model.now.columns) (plain_aim aim) }
    requires scratch { FitsWalk (length model.now.columns) scratch.old }
    ensures range { IsRange model.now (plain tree.now) place (plain_aim aim.entry) result }
    ensures holds { IfSome result (λ run. (e : ℤ) → run.0 ≤ℤ e → e ≤ℤ run.1 → Holds (plain_aim aim.entry) (raised model.now place e)) }
    ensures scratch { FitsWalk (length model.now.columns) scratch.new }
{
    let asked = Asked {
        model,
        tree,
        place,
        aim,
    };
    range_of(alloc, &asked, scratch)
}
