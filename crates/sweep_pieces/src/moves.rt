//! Pieces moved out of solves.
ghost use Rattle.std.specs.Prelude.{◌≡◌, ◌^◌, ◌≤◌, pos, slice_get};
ghost use Rattle.proof_tree.specs.Trees.{plain};
ghost use Rattle.sweep_pieces.specs.Internal.Moves.{HasShortStep, after_taking, without_claim, without_tree};
ghost use Rattle.sweep_pieces.specs.Pieces.{IsPieceOf};
ghost use Rattle.sweep_pieces.specs.Runs.{step_of};

use crate::runs::Run;
use ip_defs::{Cert, Multipliers};
use proof_tree::{Claim, Tree};
use std::alloc::Global;
use std::mem;
use sweep_proof::RowPiece;
use sweep_solves::Made;

/// The step of a solve.
fn step_number(made: &Made) -> u32
    requires step { made.now.p ≡ pos (step_of made.now) }
    requires few { step_of made.now ≤ 10 ^ 6 }
    ensures { result ≡ step_of made.now }
{
    made.p as u32
}

/// Takes the claim out of a solve, which then claims emptiness.
fn take_claim(made: &mut Made) -> Claim
    ensures claim { result ≡ made.old.proof.claim }
    ensures rest { made.new ≡ without_claim made.old }
{
    mem::replace(&mut made.proof.claim, Claim::Empty)
}

/// Takes the tree out of a solve, and leaves a leaf without multipliers.
fn take_tree(alloc: Global, made: &mut Made) -> Tree
    ensures tree { plain result ≡ plain made.old.proof.tree }
    ensures rest { made.new ≡ without_tree made.old }
{
    let bare = Cert {
        q: 0,
        y: Multipliers::from_vec(Vec::new(alloc)),
    };
    mem::replace(&mut made.proof.tree, Tree::Leaf(bare))
}

/// Takes the piece of a run out of the solves.
pub(crate) fn take_piece(alloc: Global, left: &mut [Made], run: Run) -> RowPiece
    requires start { HasShortStep (slice_get left.old run.first) }
    requires end { HasShortStep (slice_get left.old run.last) }
    ensures piece { IsPieceOf left.old run result }
    ensures left { left.new ≡ after_taking run left.old }
{
    let from = step_number(&left[run.first]);
    let to = step_number(&left[run.last]);
    let claim = take_claim(&mut left[run.first]);
    let tree = take_tree(alloc, &mut left[run.last]);
    RowPiece {
        from,
        to,
        claim,
        tree,
    }
}
