//! The pieces of a row sweep from the runs of its steps.
ghost use Rattle.std.specs.Prelude.{◌≡◌, ◌+◌, ◌^◌, ◌≤◌, IfOk, None, length};
ghost use Rattle.branching.specs.Outcomes.{Pairwise};
ghost use Rattle.ip_defs.specs.Lists.{Each};
ghost use Rattle.sweep_pieces.specs.Pieces.{IsPieceOf};
ghost use Rattle.sweep_pieces.specs.Runs.{AreRuns, IsSolve, next_after};
ghost use Rattle.sweep_proof.specs.RowRules.{row_rules};
ghost use Rattle.sweep_proof.specs.RowSweeps.{FitsPieces, IsWidening};
ghost use Rattle.sweep_proof.specs.declared.verdicts.SweepVerdict.TheVariants as Ends;
ghost use Rattle.sweep_solves.specs.Solves.{nodes_made};

use crate::moves::take_piece;
use crate::runs::Run;
use ip_defs::{Listed, Memory};
use ip_model::{IntModel, Place};
use std::alloc::Global;
use sweep_proof::{RowPieces, RowSweep};
use sweep_solves::{Made, Mades};

/// One piece for each run, in their order, taken out of the solves.
fn pieces_of(
    alloc: Global,
    model: &IntModel,
    dir: &[(Place, i64)],
    left: &mut [Made],
    runs: &[Run],
) -> Result<RowPieces, Memory>
    requires solves { Each (IsSolve model.now dir.now) left.old }
    requires runs { AreRuns model.now left.old 0 None runs.now }
    requires ends { next_after left.old 0 runs.now ≤ 10 ^ 6 + 1 }
    ensures { IfOk result (λ ps. Pairwise (IsPieceOf left.old) runs.now ps) }
{
    let mut pieces = Listed::from_vec(Vec::new(alloc));
    for run in runs {
        let piece = take_piece(alloc, left, *run);
        match pieces.push(piece) {
            Ok(()) => {}
            Err(_) => return Err(Memory),
        }
    }
    Ok(pieces)
}

/// The row sweep of the steps from 0 to `steps`, one piece for each run: its claim is that of the solve at the first step of the run, and
/// its tree that of the solve at the last one, both moved out of the solves. The rules call it proved, and it is within the limits.
///
/// Each solve is at a step, with a proof for the model there; there are at most 10,000, with at most 1,000,000 nodes together. The runs
/// follow each other: the first begins at step 0, each other one at the step after the one before it, and the last ends at `steps`. The
/// solves at both ends of a run have one value, and each run has a lower one than the run before. Out of memory is the one error.
pub fn row_sweep_of(
    alloc: Global,
    model: &IntModel,
    dir: &[(Place, i64)],
    steps: u32,
    mades: Mades,
    runs: &[Run],
) -> Result<RowSweep, Memory>
    requires widening { IsWidening dir.now }
    requires steps { steps ≤ 10 ^ 6 }
    requires few { length mades ≤ 10000 }
    requires solves { Each (IsSolve model.now dir.now) mades }
    requires nodes { nodes_made mades ≤ 1000000 }
    requires runs { AreRuns model.now mades 0 None runs.now }
    requires ends { next_after mades 0 runs.now ≡ steps + 1 }
    ensures pieces { IfOk result (λ s. Pairwise (IsPieceOf mades) runs.now s.pieces) }
    ensures proved { IfOk result (λ s. row_rules model.now dir.now steps s.pieces ≡ Ends.Proved) }
    ensures fits { IfOk result (λ s. FitsPieces model.now s.pieces) }
{
    let _parts = model.parts();
    let mut left = mades.into_vec();
    let pieces = pieces_of(alloc, model, dir, &mut left, runs)?;
    Ok(RowSweep { pieces })
}
