//! The ends of a range: the last good change up and the last good one down.
ghost use Rattle.std.specs.Prelude.{◌+◌, ◌<◌, ◌≤◌, ℕ, pos, length};
ghost use Rattle.proof_tree.specs.Scratches.{FitsWalk};
ghost use Rattle.range_finder.specs.Internal.Asked.{IsAsked, IsGood, IsMet, IsReached, steps_by};
ghost use Rattle.range_finder.specs.Internal.Tries.{IsTried};

use crate::asked::Asked;
use crate::goodness::is_good;
use crate::steps::{between, change_of};
use crate::tries::FirstTry;
use leaf_cert::Scratch;
use std::alloc::Global;

/// The last good number of steps from one that is good on, below one that is bad.
fn last_good(
    alloc: Global,
    asked: &Asked<'_>,
    up: bool,
    from: u64,
    to: u64,
    scratch: &mut Scratch,
) -> u64
    requires asked { IsAsked asked.now }
    requires met { IsMet asked.now }
    requires apart { from < to }
    requires within { (k : ℕ) → k ≤ to → IsReached asked.now up k }
    requires good { IsGood asked.now (steps_by up from) }
    requires bad { ¬ IsGood asked.now (steps_by up to) }
    requires scratch { FitsWalk (length asked.now.model.now.columns) scratch.old }
    ensures good { IsGood asked.now (steps_by up result) }
    ensures next { ¬ IsGood asked.now (steps_by up (result + 1)) }
    ensures scratch { FitsWalk (length asked.now.model.now.columns) scratch.new }
{
    let grows = to <= 1 << 41;
    let mut good = from;
    let mut bad = to;
    while bad - good > 1 {
        let steps = between(good, bad, grows);
        if is_good(alloc, asked, change_of(up, steps), scratch) {
            good = steps;
        } else {
            bad = steps;
        }
    }
    good
}

/// How many steps from 0 are good one after the other, in a direction whose first try is known: all up to the limit of the number, or fewer.
pub(crate) fn good_steps(
    alloc: Global,
    asked: &Asked<'_>,
    first: FirstTry,
    scratch: &mut Scratch,
) -> u64
    requires asked { IsAsked asked.now }
    requires met { IsMet asked.now }
    requires tried { IsTried asked.now first }
    requires now { IsGood asked.now (pos 0) }
    requires scratch { FitsWalk (length asked.now.model.now.columns) scratch.old }
    ensures good { IsGood asked.now (steps_by first.up result) }
    ensures next { ¬ IsGood asked.now (steps_by first.up (result + 1)) }
    ensures scratch { FitsWalk (length asked.now.model.now.columns) scratch.new }
{
    if !first.is_good {
        return last_good(alloc, asked, first.up, 0, first.steps, scratch);
    }
    if first.steps == first.most {
        return first.most;
    }
    if is_good(alloc, asked, change_of(first.up, first.most), scratch) {
        return first.most;
    }
    last_good(alloc, asked, first.up, first.steps, first.most, scratch)
}
