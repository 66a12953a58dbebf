//! The check of the proof of a cost sweep, by its rules.
ghost use Rattle.std.specs.Prelude.{◌≡◌, ◌+◌, ◌-◌, ◌<◌, ◌≤◌, ◌<ℤ◌, ◌^◌, IfOk, length, pos, true};
ghost use Rattle.std.specs.Int.RustNames.{unsigned_abs};
ghost use Rattle.ip_defs.specs.Lists.{Each, first};
ghost use Rattle.proof_tree.specs.Scratches.{FitsWalk};
ghost use Rattle.proof_tree.specs.Trees.{plain};
ghost use Rattle.sweep_proof.specs.CostRules.{break_fault as break_fault_of, claims_fault as claims_fault_of, cost_rules};
ghost use Rattle.sweep_proof.specs.CostRules.{counts_fit as counts_fit_of, empty_fault as empty_fault_of};
ghost use Rattle.sweep_proof.specs.CostRules.{fault_there as fault_there_of, meet_at as meet_at_of, model_at as model_at_of};
ghost use Rattle.sweep_proof.specs.CostRules.{points_fault as points_fault_of, reach_at as reach_at_of, unless_same};
ghost use Rattle.sweep_proof.specs.CostSweeps.{AreCostsWithin, FitsCostSweep, FitsPoint, FitsTree, IsDirection, IsExactCostSweep};
ghost use Rattle.sweep_proof.specs.CostSweeps.{tree_at};
ghost use Rattle.sweep_proof.specs.declared.verdicts.SweepVerdict.TheVariants as Ends;

use crate::breaks::{break_of, cover_fault};
use crate::checks::short_at;
use crate::slopes::{first_breached, first_rising, point_of};
use crate::{CostSweep, SweepVerdict};
use ip_defs::{Memory, Point};
use ip_model::{IntModel, cost};
use leaf_cert::Scratch;
use perturbation::{LineError, cost_line};
use proof_tree::{Tree, tree_bound};
use std::alloc::Global;

/// The model at the parameter p/q, none where a cost of it exceeds the limit.
fn model_at(
    alloc: Global,
    model: &IntModel,
    dir: &[i64],
    p: i128,
    q: i128,
) -> Result<Option<IntModel>, Memory>
    requires dir { IsDirection model.now dir.now }
    requires p { unsigned_abs p ≤ 2 ^ 80 }
    requires q { unsigned_abs q ≤ 2 ^ 80 }
    requires positive { pos 0 <ℤ q }
    ensures { IfOk result (λ o. o ≡ model_at_of model.now dir.now p q) }
{
    match cost_line(alloc, model, dir, p, q) {
        Ok(moved) => Ok(Some(moved)),
        Err(LineError::Limit { .. }) => Ok(None),
        Err(LineError::Memory) => Err(Memory),
    }
}

/// The tree of a number.
fn tree_of(trees: &[Tree], k: usize) -> &Tree
    requires { k < length trees.now }
    ensures { plain result.now ≡ tree_at trees.now k }
{
    &trees[k]
}

/// The verdict where the points at both sides of the break after a piece do not cost the same.
fn same_at(piece: usize, left: i128, right: i128) -> Option<SweepVerdict>
    requires { piece ≤ 10000 }
    ensures { result ≡ unless_same piece left right }
{
    if left == right {
        None
    } else {
        Some(SweepVerdict::Meet {
            piece: piece as u32,
            left,
            right,
        })
    }
}

/// The verdict where break k lies between two pieces whose points do not cost the same in the model there.
fn meet_at(there: &IntModel, points: &[Point], k: usize) -> Option<SweepVerdict>
    requires few { length points.now ≤ 10000 }
    requires fits { Each (FitsPoint there.now) points.now }
    requires inside { k ≤ length points.now }
    ensures { result ≡ meet_at_of there.now points.now k }
{
    if k == 0 || k == points.len() {
        return None;
    }
    let left = cost(there, point_of(points, k - 1));
    let right = cost(there, point_of(points, k));
    same_at(k - 1, left, right)
}

/// The verdict where the bound of the tree of break k is below the cost of the point of its piece in the model there.
fn reach_at(
    alloc: Global,
    there: &IntModel,
    points: &[Point],
    k: usize,
    tree: &Tree,
    scratch: &mut Scratch,
) -> Option<SweepVerdict>
    requires some { 1 ≤ length points.now }
    requires few { length points.now ≤ 10000 }
    requires fits { Each (FitsPoint there.now) points.now }
    requires inside { k ≤ length points.now }
    requires tree { FitsTree there.now (plain tree.now) }
    requires scratch { FitsWalk (length there.now.columns) scratch.old }
    ensures fault { result ≡ reach_at_of there.now points.now (plain tree.now) k }
    ensures scratch { FitsWalk (length there.now.columns) scratch.new }
{
    let piece = k.saturating_sub(1);
    let claimed = cost(there, point_of(points, piece));
    let bound = tree_bound(alloc, there, tree, scratch);
    short_at(piece as u32, bound, Some(claimed))
}

/// What is wrong at break k in the model there.
fn fault_there(
    alloc: Global,
    there: &IntModel,
    points: &[Point],
    k: usize,
    tree: &Tree,
    scratch: &mut Scratch,
) -> Option<SweepVerdict>
    requires some { 1 ≤ length points.now }
    requires few { length points.now ≤ 10000 }
    requires fits { Each (FitsPoint there.now) points.now }
    requires inside { k ≤ length points.now }
    requires tree { FitsTree there.now (plain tree.now) }
    requires scratch { FitsWalk (length there.now.columns) scratch.old }
    ensures fault { result ≡ fault_there_of points.now (plain tree.now) k there.now }
    ensures scratch { FitsWalk (length there.now.columns) scratch.new }
{
    match meet_at(there, points, k) {
        Some(fault) => Some(fault),
        None => reach_at(alloc, there, points, k, tree, scratch),
    }
}

/// What is wrong at break k.
fn break_fault(
    alloc: Global,
    model: &IntModel,
    dir: &[i64],
    sweep: &CostSweep,
    k: usize,
    scratch: &mut Scratch,
) -> Result<Option<SweepVerdict>, Memory>
    requires fits { FitsCostSweep model.now sweep.now }
    requires dir { IsDirection model.now dir.now }
    requires breaks { length sweep.now.breaks ≡ length sweep.now.points + 1 }
    requires trees { length sweep.now.trees ≡ length sweep.now.points + 1 }
    requires some { 1 ≤ length sweep.now.points }
    requires inside { k ≤ length sweep.now.points }
    requires scratch { FitsWalk (length model.now.columns) scratch.old }
    ensures fault { IfOk result (λ o. o ≡ break_fault_of model.now dir.now sweep.now k) }
    ensures scratch { FitsWalk (length model.now.columns) scratch.new }
{
    let at = break_of(sweep.breaks.as_slice(), k);
    match model_at(alloc, model, dir, at.num(), at.den()) {
        Ok(Some(there)) => {
            let tree = tree_of(sweep.trees.as_slice(), k);
            let points = sweep.points.as_slice();
            Ok(fault_there(alloc, &there, points, k, tree, scratch))
        }
        Ok(None) => Ok(Some(SweepVerdict::Cover {
            piece: k.saturating_sub(1) as u32,
        })),
        Err(memory) => Err(memory),
    }
}

/// The first break with a fault.
fn first_break_fault(
    alloc: Global,
    model: &IntModel,
    dir: &[i64],
    sweep: &CostSweep,
    scratch: &mut Scratch,
) -> Result<Option<SweepVerdict>, Memory>
    requires fits { FitsCostSweep model.now sweep.now }
    requires dir { IsDirection model.now dir.now }
    requires breaks { length sweep.now.breaks ≡ length sweep.now.points + 1 }
    requires trees { length sweep.now.trees ≡ length sweep.now.points + 1 }
    requires some { 1 ≤ length sweep.now.points }
    requires scratch { FitsWalk (length model.now.columns) scratch.old }
    ensures fault { IfOk result (λ o. o ≡ first (break_fault_of model.now dir.now sweep.now) (length sweep.now.breaks)) }
    ensures scratch { FitsWalk (length model.now.columns) scratch.new }
{
    for k in 0..sweep.breaks.as_slice().len() {
        match break_fault(alloc, model, dir, sweep, k, scratch) {
            Ok(None) => {}
            Ok(Some(fault)) => return Ok(Some(fault)),
            Err(memory) => return Err(memory),
        }
    }
    Ok(None)
}

/// What is wrong with the one tree of a proof without points: its bound at the first parameter is not infinite.
fn empty_fault(
    alloc: Global,
    model: &IntModel,
    dir: &[i64],
    from: i64,
    sweep: &CostSweep,
    scratch: &mut Scratch,
) -> Result<Option<SweepVerdict>, Memory>
    requires fits { FitsCostSweep model.now sweep.now }
    requires dir { IsDirection model.now dir.now }
    requires first { AreCostsWithin model.now dir.now from (pos 1) }
    requires trees { length sweep.now.trees ≡ 1 }
    requires scratch { FitsWalk (length model.now.columns) scratch.old }
    ensures fault { IfOk result (λ o. o ≡ empty_fault_of model.now dir.now from sweep.now) }
    ensures scratch { FitsWalk (length model.now.columns) scratch.new }
{
    match model_at(alloc, model, dir, i128::from(from), 1) {
        Ok(Some(there)) => {
            let tree = tree_of(sweep.trees.as_slice(), 0);
            let bound = tree_bound(alloc, &there, tree, scratch);
            Ok(short_at(0, bound, None))
        }
        Ok(None) => unreachable!(),
        Err(memory) => Err(memory),
    }
}

/// What is wrong with the points of a proof and with its trees at the breaks.
fn points_fault(
    alloc: Global,
    model: &IntModel,
    dir: &[i64],
    sweep: &CostSweep,
    scratch: &mut Scratch,
) -> Result<Option<SweepVerdict>, Memory>
    requires fits { FitsCostSweep model.now sweep.now }
    requires dir { IsDirection model.now dir.now }
    requires breaks { length sweep.now.breaks ≡ length sweep.now.points + 1 }
    requires trees { length sweep.now.trees ≡ length sweep.now.points + 1 }
    requires some { 1 ≤ length sweep.now.points }
    requires scratch { FitsWalk (length model.now.columns) scratch.old }
    ensures fault { IfOk result (λ o. o ≡ points_fault_of model.now dir.now sweep.now) }
    ensures scratch { FitsWalk (length model.now.columns) scratch.new }
{
    let points = sweep.points.as_slice();
    if let Some(fault) = first_breached(model, points) {
        return Ok(Some(fault));
    }
    if let Some(fault) = first_rising(model, dir, points) {
        return Ok(Some(fault));
    }
    first_break_fault(alloc, model, dir, sweep, scratch)
}

/// What is wrong with what a proof claims, where its breaks are right.
fn claims_fault(
    alloc: Global,
    model: &IntModel,
    dir: &[i64],
    from: i64,
    sweep: &CostSweep,
    scratch: &mut Scratch,
) -> Result<Option<SweepVerdict>, Memory>
    requires fits { FitsCostSweep model.now sweep.now }
    requires dir { IsDirection model.now dir.now }
    requires first { AreCostsWithin model.now dir.now from (pos 1) }
    requires counts { counts_fit_of (length sweep.now.points) (length sweep.now.breaks) (length sweep.now.trees) ≡ true }
    requires scratch { FitsWalk (length model.now.columns) scratch.old }
    ensures fault { IfOk result (λ o. o ≡ claims_fault_of model.now dir.now from sweep.now) }
    ensures scratch { FitsWalk (length model.now.columns) scratch.new }
{
    if sweep.points.as_slice().is_empty() {
        empty_fault(alloc, model, dir, from, sweep, scratch)
    } else {
        points_fault(alloc, model, dir, sweep, scratch)
    }
}

/// The verdict by the rules.
fn cost_verdict(
    alloc: Global,
    model: &IntModel,
    dir: &[i64],
    from: i64,
    to: i64,
    sweep: &CostSweep,
    scratch: &mut Scratch,
) -> Result<SweepVerdict, Memory>
    requires fits { FitsCostSweep model.now sweep.now }
    requires dir { IsDirection model.now dir.now }
    requires first { AreCostsWithin model.now dir.now from (pos 1) }
    requires scratch { FitsWalk (length model.now.columns) scratch.old }
    ensures verdict { IfOk result (λ v. v ≡ cost_rules model.now dir.now from to sweep.now) }
    ensures scratch { FitsWalk (length model.now.columns) scratch.new }
{
    if let Some(fault) = cover_fault(from, to, sweep) {
        return Ok(fault);
    }
    match claims_fault(alloc, model, dir, from, sweep, scratch) {
        Ok(None) => Ok(SweepVerdict::Proved),
        Ok(Some(fault)) => Ok(fault),
        Err(memory) => Err(memory),
    }
}

/// The verdict on the proof of a cost sweep from the parameter `from` to the parameter `to` along a direction of the costs, with one
/// number for each column, by these rules in their order. The model at p/q has the costs `q * cost + p * direction` and the constant 0,
/// and the costs of the verdict are those in it. A break belongs to the piece to its left, the first one to piece 0.
///
/// - `Cover` at piece 0 where there are not as many breaks and trees as the points ask for, or the first break and the last are not the
///   ends of the sweep; then at the first piece whose breaks do not rise.
/// - `Breach` at the first piece whose point is not feasible.
/// - `Fall` at the first piece whose slope, the sum of direction times coordinate over its point, is not above that of the next piece.
/// - Then for each break in order: `Cover` where a cost of the model there exceeds 2^40 in absolute value; `Meet` where it lies between
///   two pieces whose points do not cost the same there; `Short` where the bound of its tree there is below the cost of the point of its
///   piece.
/// - Without points, `Short` at piece 0 where the bound of the one tree in the model at `from` is not infinite.
///
/// `Proved` says that the sweep is exact, whatever made the proof: at each rational parameter of a piece its point is optimal, and
/// without points no point is feasible. No cost of the model at `from` exceeds its limit. One model is made for each break, and its tree
/// is walked once. Out of memory is the one error.
pub fn check_cost_sweep(
    alloc: Global,
    model: &IntModel,
    dir: &[i64],
    from: i64,
    to: i64,
    sweep: &CostSweep,
    scratch: &mut Scratch,
) -> Result<SweepVerdict, Memory>
    requires fits { FitsCostSweep model.now sweep.now }
    requires dir { IsDirection model.now dir.now }
    requires first { AreCostsWithin model.now dir.now from (pos 1) }
    requires scratch { FitsWalk (length model.now.columns) scratch.old }
    ensures verdict { IfOk result (λ v. v ≡ cost_rules model.now dir.now from to sweep.now) }
    ensures exact { IfOk result (λ v. v ≡ Ends.Proved
        → IsExactCostSweep model.now dir.now from to sweep.now.breaks sweep.now.points) }
    ensures scratch { FitsWalk (length model.now.columns) scratch.new }
{
    cost_verdict(alloc, model, dir, from, to, sweep, scratch)
}
