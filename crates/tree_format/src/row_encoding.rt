//! Writing the one spelling of a row sweep.
ghost use Rattle.std.specs.Prelude.{◌≡◌, ◌++◌, map, OnOk, IfOk};
ghost use Rattle.std.specs.List.{flat_map};
ghost use Rattle.ip_defs.specs.Lists.{Each};
ghost use Rattle.tree_format.specs.RowSpellings.{AreRowsWithin, IsPieceWithin, SpellsRows, plain_piece, piece_bytes};

use crate::encoding::{push_claim, push_tree};
use crate::numbers::push_number;
use crate::{Memory, RowPiece, RowSweep};
use std::alloc::Global;

/// Writes a piece at the end.
fn push_piece(out: &mut Vec<u8>, piece: &RowPiece) -> Result<(), Memory>
    requires { IsPieceWithin (plain_piece piece.now) }
    ensures { OnOk result (out.new.items ≡ out.old.items ++ piece_bytes (plain_piece piece.now)) }
{
    push_number(out, u64::from(piece.from))?;
    push_number(out, u64::from(piece.to))?;
    push_claim(out, &piece.claim)?;
    push_tree(out, &piece.tree)
}

/// Writes pieces at the end.
fn push_pieces(out: &mut Vec<u8>, pieces: &[RowPiece]) -> Result<(), Memory>
    requires { Each IsPieceWithin (map plain_piece pieces.now) }
    ensures { OnOk result (out.new.items ≡ out.old.items ++ flat_map piece_bytes (map plain_piece pieces.now)) }
{
    for piece in pieces {
        push_piece(out, piece)?;
    }
    Ok(())
}

/// The bytes of the proof of a row sweep: its one spelling.
pub fn encode_rows(alloc: Global, sweep: &RowSweep) -> Result<Vec<u8>, Memory>
    requires within { AreRowsWithin (map plain_piece sweep.now.pieces) }
    ensures spelled { IfOk result (λ bytes. SpellsRows bytes.items (map plain_piece sweep.now.pieces)) }
{
    let pieces = sweep.pieces.as_slice();
    let mut out = Vec::from_array(alloc, [0x49, 0x50, 0x53, 0x52, 0x01])?;
    push_number(&mut out, pieces.len() as u64)?;
    push_pieces(&mut out, pieces)?;
    Ok(out)
}
