//! The check of the proof of a row sweep, by its rules.
ghost use Rattle.std.specs.Prelude.{◌≡◌, ◌≤◌, ◌^◌, IfOk, None, length};
ghost use Rattle.std.specs.Int.RustNames.{unsigned_abs};
ghost use Rattle.ip_defs.specs.Lists.{Each};
ghost use Rattle.perturbation.specs.Lines.{IsSide, row_at};
ghost use Rattle.proof_tree.specs.Scratches.{FitsWalk};
ghost use Rattle.proof_tree.specs.Trees.{plain, tree_bound as tree_bound_of};
ghost use Rattle.proof_tree.specs.Verdicts.{HasLength, is_at_least as is_at_least_of};
ghost use Rattle.sweep_proof.specs.Internal.Lines.{AreWithin, EndsWithin};
ghost use Rattle.sweep_proof.specs.RowRules.{claim_fault as claim_fault_of, claimed_cost as claimed_cost_of, fall_at as fall_at_of};
ghost use Rattle.sweep_proof.specs.RowRules.{first_fault as first_fault_of, piece_fault as piece_fault_of, reaches as reaches_of};
ghost use Rattle.sweep_proof.specs.RowRules.{row_rules, short_at as short_at_of};
ghost use Rattle.sweep_proof.specs.RowSweeps.{FitsPiece, FitsPieces, IsExactRowSweep, IsWidening, IsWithinAt};
ghost use Rattle.sweep_proof.specs.declared.verdicts.SweepVerdict.TheVariants as Ends;

use crate::steps::{first_gap, model_after, stays_within};
use crate::{RowPiece, RowSweep, SweepVerdict};
use ip_defs::{Bound, Memory};
use ip_model::{IntModel, Place, cost, first_breach};
use leaf_cert::Scratch;
use proof_tree::{Claim, tree_bound};
use std::alloc::Global;

/// The cost of a claimed point; None for a claim of emptiness.
fn claimed_cost(model: &IntModel, claim: &Claim) -> Option<i128>
    requires { HasLength (length model.now.columns) claim.now }
    ensures { result ≡ claimed_cost_of model.now claim.now }
{
    match claim {
        Claim::Best(point) => Some(cost(model, point)),
        Claim::Empty => None,
    }
}

/// Whether a bound reaches a claimed cost, or is infinite where emptiness is claimed.
fn reaches(bound: Bound, claim: Option<i128>) -> bool
    ensures { result ≡ reaches_of bound claim }
{
    match (bound, claim) {
        (Bound::At(value), Some(cost)) => value >= cost,
        (Bound::At(_), None) => false,
        (Bound::Infinite, _) => true,
    }
}

/// The verdict where a bound does not reach a claimed cost.
pub(crate) fn short_at(piece: u32, bound: Bound, claim: Option<i128>) -> Option<SweepVerdict>
    ensures { result ≡ short_at_of piece bound claim }
{
    if reaches(bound, claim) {
        None
    } else {
        Some(SweepVerdict::Short {
            piece,
            bound,
            claim,
        })
    }
}

/// The verdict where a cost is not below the one before it.
pub(crate) fn fall_at(piece: u32, before: Option<i128>, cost: i128) -> Option<SweepVerdict>
    ensures { result ≡ fall_at_of piece before cost }
{
    match before {
        Some(left) => {
            if cost < left {
                None
            } else {
                Some(SweepVerdict::Fall {
                    piece,
                    left,
                    right: cost,
                })
            }
        }
        None => None,
    }
}

/// What is wrong with the claim of a piece at its first step, after a piece of this claimed cost.
fn claim_fault(
    alloc: Global,
    model: &IntModel,
    dir: &[(Place, i64)],
    k: u32,
    before: Option<i128>,
    piece: &RowPiece,
) -> Result<Option<SweepVerdict>, Memory>
    requires sides { Each (λ d. IsSide model.now d.0) dir.now }
    requires small { Each (λ d. unsigned_abs d.1 ≤ 2 ^ 62) dir.now }
    requires fits { FitsPiece model.now piece.now }
    requires within { IsWithinAt model.now dir.now piece.now.from }
    ensures { IfOk result (λ o. o ≡ claim_fault_of model.now dir.now k before piece.now piece.now.claim) }
{
    match &piece.claim {
        Claim::Best(point) => {
            let first = model_after(alloc, model, dir, piece.from)?;
            match first_breach(&first, point) {
                Some(place) => Ok(Some(SweepVerdict::Breach { piece: k, place })),
                None => Ok(fall_at(k, before, cost(model, point))),
            }
        }
        Claim::Empty => {
            if k == 0 {
                Ok(None)
            } else {
                Ok(Some(SweepVerdict::Cover { piece: k }))
            }
        }
    }
}

/// The bound of the tree of a piece for the model of its last step.
fn bound_after(
    alloc: Global,
    model: &IntModel,
    dir: &[(Place, i64)],
    piece: &RowPiece,
    scratch: &mut Scratch,
) -> Result<Bound, Memory>
    requires sides { Each (λ d. IsSide model.now d.0) dir.now }
    requires small { Each (λ d. unsigned_abs d.1 ≤ 2 ^ 62) dir.now }
    requires fits { FitsPiece model.now piece.now }
    requires within { IsWithinAt model.now dir.now piece.now.to }
    requires scratch { FitsWalk (length model.now.columns) scratch.old }
    ensures bound { IfOk result (λ v. v ≡ tree_bound_of (row_at model.now dir.now piece.now.to) (plain piece.now.tree)) }
    ensures scratch { FitsWalk (length model.now.columns) scratch.new }
{
    let last = model_after(alloc, model, dir, piece.to)?;
    Ok(tree_bound(alloc, &last, &piece.tree, scratch))
}

/// What is wrong with a piece, after a piece of this claimed cost.
fn piece_fault(
    alloc: Global,
    model: &IntModel,
    dir: &[(Place, i64)],
    k: u32,
    before: Option<i128>,
    piece: &RowPiece,
    scratch: &mut Scratch,
) -> Result<Option<SweepVerdict>, Memory>
    requires sides { Each (λ d. IsSide model.now d.0) dir.now }
    requires small { Each (λ d. unsigned_abs d.1 ≤ 2 ^ 62) dir.now }
    requires fits { FitsPiece model.now piece.now }
    requires from { IsWithinAt model.now dir.now piece.now.from }
    requires to { IsWithinAt model.now dir.now piece.now.to }
    requires scratch { FitsWalk (length model.now.columns) scratch.old }
    ensures fault { IfOk result (λ o. o ≡ piece_fault_of model.now dir.now k before piece.now) }
    ensures scratch { FitsWalk (length model.now.columns) scratch.new }
{
    match claim_fault(alloc, model, dir, k, before, piece)? {
        Some(fault) => Ok(Some(fault)),
        None => {
            let bound = bound_after(alloc, model, dir, piece, scratch)?;
            Ok(short_at(k, bound, claimed_cost(model, &piece.claim)))
        }
    }
}

/// The first piece with a fault.
fn first_fault(
    alloc: Global,
    model: &IntModel,
    dir: &[(Place, i64)],
    steps: u32,
    pieces: &[RowPiece],
    scratch: &mut Scratch,
) -> Result<Option<SweepVerdict>, Memory>
    requires sides { Each (λ d. IsSide model.now d.0) dir.now }
    requires small { Each (λ d. unsigned_abs d.1 ≤ 2 ^ 62) dir.now }
    requires few { length pieces.now ≤ 10000 }
    requires fits { Each (FitsPiece model.now) pieces.now }
    requires within { AreWithin model.now dir.now steps }
    requires ends { Each (EndsWithin steps) pieces.now }
    requires scratch { FitsWalk (length model.now.columns) scratch.old }
    ensures fault { IfOk result (λ o. o ≡ first_fault_of model.now dir.now 0 None pieces.now) }
    ensures scratch { FitsWalk (length model.now.columns) scratch.new }
{
    let mut before = None;
    for (k, piece) in pieces.iter().enumerate() {
        match piece_fault(alloc, model, dir, k as u32, before, piece, scratch) {
            Ok(None) => {}
            Ok(Some(fault)) => return Ok(Some(fault)),
            Err(memory) => return Err(memory),
        }
        before = claimed_cost(model, &piece.claim);
    }
    Ok(None)
}

/// The verdict by the rules.
fn judged(
    alloc: Global,
    model: &IntModel,
    dir: &[(Place, i64)],
    steps: u32,
    sweep: &RowSweep,
    scratch: &mut Scratch,
) -> Result<SweepVerdict, Memory>
    requires fits { FitsPieces model.now sweep.now.pieces }
    requires sides { Each (λ d. IsSide model.now d.0) dir.now }
    requires small { Each (λ d. unsigned_abs d.1 ≤ 2 ^ 62) dir.now }
    requires last { IsWithinAt model.now dir.now steps }
    requires scratch { FitsWalk (length model.now.columns) scratch.old }
    ensures verdict { IfOk result (λ v. v ≡ row_rules model.now dir.now steps sweep.now.pieces) }
    ensures scratch { FitsWalk (length model.now.columns) scratch.new }
{
    let pieces = sweep.pieces.as_slice();
    stays_within(model, dir, steps);
    match first_gap(steps, pieces) {
        Some(gap) => Ok(gap),
        None => match first_fault(alloc, model, dir, steps, pieces, scratch)? {
            Some(fault) => Ok(fault),
            None => Ok(SweepVerdict::Proved),
        },
    }
}

/// The verdict on the proof of a row sweep from step 0 to `steps` along a direction of row sides, by these rules in their order:
///
/// - `Cover` at the first piece that does not begin where the one before it ended, the first at step 0, or begins after its own end, or
///   is the last and does not end at the last step.
/// - Then for each piece in order: `Cover` where it claims emptiness and is not the first; `Breach` where its point is not feasible at
///   its first step; `Fall` where its point does not cost less than that of the piece before; `Short` where its tree does not bound the
///   model of its last step by the claimed cost.
///
/// `Proved` says that the sweep is exact, whatever made the proof, where each low side moves down or stays and each high side moves up or
/// stays: the claim of a piece is true at each of its steps. Two models are made for each piece, and its tree is walked once. Out of
/// memory is the one error.
pub fn check_row_sweep(
    alloc: Global,
    model: &IntModel,
    dir: &[(Place, i64)],
    steps: u32,
    sweep: &RowSweep,
    scratch: &mut Scratch,
) -> Result<SweepVerdict, Memory>
    requires fits { FitsPieces model.now sweep.now.pieces }
    requires sides { Each (λ d. IsSide model.now d.0) dir.now }
    requires small { Each (λ d. unsigned_abs d.1 ≤ 2 ^ 62) dir.now }
    requires last { IsWithinAt model.now dir.now steps }
    requires scratch { FitsWalk (length model.now.columns) scratch.old }
    ensures verdict { IfOk result (λ v. v ≡ row_rules model.now dir.now steps sweep.now.pieces) }
    ensures exact { IsWidening dir.now → IfOk result (λ v. v ≡ Ends.Proved
        → IsExactRowSweep model.now dir.now steps sweep.now.pieces) }
    ensures scratch { FitsWalk (length model.now.columns) scratch.new }
{
    judged(alloc, model, dir, steps, sweep, scratch)
}
