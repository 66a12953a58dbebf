//! Whether a change is good: the aim holds in the changed model, as far as the tree proves it.
ghost use Rattle.std.specs.Prelude.{◌↔◌, IsTrue, length};
ghost use Rattle.ip_defs.specs.Program.{IsFeasible};
ghost use Rattle.leaf_cert.specs.Changes.{IsWithinLimit};
ghost use Rattle.proof_tree.specs.Scratches.{FitsWalk};
ghost use Rattle.proof_tree.specs.Trees.{plain};
ghost use Rattle.proof_tree.specs.Verdicts.{IsAtLeast};
ghost use Rattle.range_laws.specs.Ranges.{IsGoodChange, stay_best};
ghost use Rattle.range_finder.specs.Aims.{HasCoordinates, plain_aim};
ghost use Rattle.range_finder.specs.Internal.Asked.{IsAsked, IsGood, IsMet};

use crate::aims::Aim;
use crate::asked::Asked;
use crate::points::{cost_after, stays_feasible};
use ip_defs::{Bound, Point};
use ip_model::first_breach;
use leaf_cert::Scratch;
use proof_tree::tree_bound_at;
use std::alloc::Global;

/// Whether a bound is at least a number.
fn reaches(bound: Bound, number: i128) -> bool
    ensures { IsTrue result ↔ IsAtLeast bound number }
{
    match bound {
        Bound::At(value) => number <= value,
        Bound::Infinite => true,
    }
}

/// Whether the point of the aim, if it has one, is feasible in the model.
pub fn is_met(asked: &Asked<'_>) -> bool
    requires { HasCoordinates (length asked.now.model.now.columns) (plain_aim asked.now.aim) }
    ensures { IsTrue result ↔ IsMet asked.now }
{
    match asked.aim {
        Aim::StayBest(point) => first_breach(asked.model, point).is_none(),
        Aim::Keep(_) => true,
    }
}

/// Whether a point stays optimal after a change by `by`.
fn stays_best(
    alloc: Global,
    asked: &Asked<'_>,
    point: &Point,
    by: i128,
    scratch: &mut Scratch,
) -> bool
    requires asked { IsAsked asked.now }
    requires within { IsWithinLimit asked.now.model.now asked.now.place by }
    requires feasible { IsFeasible asked.now.model.now point.now }
    requires scratch { FitsWalk (length asked.now.model.now.columns) scratch.old }
    ensures good { IsTrue result
        ↔ IsGoodChange asked.now.model.now (plain asked.now.tree.now) asked.now.place (stay_best point.now) by }
    ensures scratch { FitsWalk (length asked.now.model.now.columns) scratch.new }
{
    if !stays_feasible(asked.model, asked.place, by, point) {
        return false;
    }
    let cost = cost_after(asked.model, asked.place, by, point);
    let bound = tree_bound_at(alloc, asked.model, asked.tree, asked.place, by, scratch);
    reaches(bound, cost)
}

/// Whether a change by `by`, within the limit of the number, is good. It takes one walk through the tree, and none where the point becomes
/// infeasible.
pub fn is_good(alloc: Global, asked: &Asked<'_>, by: i128, scratch: &mut Scratch) -> bool
    requires asked { IsAsked asked.now }
    requires met { IsMet asked.now }
    requires within { IsWithinLimit asked.now.model.now asked.now.place by }
    requires scratch { FitsWalk (length asked.now.model.now.columns) scratch.old }
    ensures good { IsTrue result ↔ IsGood asked.now by }
    ensures scratch { FitsWalk (length asked.now.model.now.columns) scratch.new }
{
    match asked.aim {
        Aim::StayBest(point) => stays_best(alloc, asked, point, by, scratch),
        Aim::Keep(number) => reaches(
            tree_bound_at(alloc, asked.model, asked.tree, asked.place, by, scratch),
            number,
        ),
    }
}
