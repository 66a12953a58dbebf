//! Which steps the pieces of a row sweep cover, and the models of steps.
ghost use Rattle.std.specs.Prelude.{◌≡◌, ◌≤◌, ◌^◌, IfOk, length};
ghost use Rattle.std.specs.Int.RustNames.{unsigned_abs};
ghost use Rattle.ip_defs.specs.Lists.{Each};
ghost use Rattle.perturbation.specs.Lines.{IsSide, row_at};
ghost use Rattle.sweep_proof.specs.Internal.Lines.{AreWithin};
ghost use Rattle.sweep_proof.specs.RowSweeps.{IsWithinAt};
ghost use Rattle.sweep_proof.specs.RowRules.{covers as covers_of, first_gap as first_gap_of};

use crate::{RowPiece, SweepVerdict};
use ip_defs::Memory;
use ip_model::{IntModel, Place};
use perturbation::{LineError, row_line};
use std::alloc::Global;

/// Whether a piece covers its steps in turn: it begins at the step that is next, not after its own end, and the last one ends where the
/// sweep does.
fn covers(steps: u32, next: u32, is_last: bool, piece: &RowPiece) -> bool
    ensures { result ≡ covers_of steps next is_last piece.now }
{
    piece.from == next && piece.from <= piece.to && (!is_last || piece.to == steps)
}

/// The first piece that does not cover its steps in turn.
pub(crate) fn first_gap(steps: u32, pieces: &[RowPiece]) -> Option<SweepVerdict>
    requires few { length pieces.now ≤ 10000 }
    requires ends { Each (λ p. p.to ≤ 10 ^ 6) pieces.now }
    ensures { result ≡ first_gap_of steps 0 0 pieces.now }
{
    let mut next = 0;
    for (k, piece) in pieces.iter().enumerate() {
        let is_last = k + 1 == pieces.len();
        if !covers(steps, next, is_last, piece) {
            return Some(SweepVerdict::Cover { piece: k as u32 });
        }
        next = piece.to + 1;
    }
    None
}

/// The model after t steps of a direction of row sides.
pub(crate) fn model_after(
    alloc: Global,
    model: &IntModel,
    dir: &[(Place, i64)],
    t: u32,
) -> Result<IntModel, Memory>
    requires sides { Each (λ d. IsSide model.now d.0) dir.now }
    requires small { Each (λ d. unsigned_abs d.1 ≤ 2 ^ 62) dir.now }
    requires t { t ≤ 10 ^ 6 }
    requires within { IsWithinAt model.now dir.now t }
    ensures { IfOk result (λ n. n ≡ row_at model.now dir.now t) }
{
    match row_line(alloc, model, dir, t) {
        Ok(moved) => Ok(moved),
        Err(LineError::Memory) => Err(Memory),
        Err(LineError::Limit { .. }) => unreachable!(),
    }
}

/// Where no side exceeds its limit at a step, none does at any step before it.
pub(crate) fn stays_within(model: &IntModel, dir: &[(Place, i64)], last: u32)
    requires sides { Each (λ d. IsSide model.now d.0) dir.now }
    requires last { IsWithinAt model.now dir.now last }
    ensures { AreWithin model.now dir.now last }
{
    let _parts = model.parts();
}
