//! Reading the proof of a row sweep from its bytes.
ghost use Rattle.std.specs.Prelude.{ℕ, ◌≡◌, ◌≤◌, ◌++◌, map, List, length, drop, IfOk, IfErr};
ghost use Rattle.std.specs.List.{flat_map};
ghost use Rattle.tree_format.specs.Grammar.{opening_at};
ghost use Rattle.tree_format.specs.Spellings.{number};
ghost use Rattle.tree_format.specs.RowSpellings.{PlainPiece, SpellsRows, plain_piece, piece_bytes};
ghost use Rattle.tree_format.specs.RowGrammar.{IsRowRefusal, count_at, piece_at, pieces_at};
ghost use Rattle.tree_format.specs.Internal.Steps.{Stands, IsFault, IsValueFault, IsPieceStep, ArePieces};

use crate::claim_steps::read_claim;
use crate::number_steps::{read_byte, read_number};
use crate::tree_steps::read_tree;
use crate::{RowPiece, RowPieces, RowSweep, TreeError};
use std::alloc::Global;

/// The most levels of a tree: its root, and 800 more.
const LEVELS: u32 = 801;

/// The greatest number of a step.
const LAST_STEP: u64 = 1_000_000;

/// The opening at a place, and the place after it; or its fault.
fn read_opening(bytes: &[u8], at: &mut usize, opening: &[u8]) -> Result<(), TreeError>
    requires within { at.old ≤ length bytes.now }
    ensures on { IfOk result (λ done. Stands bytes.now at.old at.new opening.now) }
    ensures fault { IfErr result (λ e. IsFault (opening_at opening.now at.old (drop at.old bytes.now)) e) }
{
    for wanted in opening {
        let place = *at as u64;
        match read_byte(bytes, at) {
            Ok(byte) => {
                if byte != *wanted {
                    return Err(TreeError::Magic { place });
                }
            }
            Err(fault) => return Err(fault),
        }
    }
    Ok(())
}

/// The count of pieces at a place, which is not 0, and the place after it; or its fault.
fn read_count(bytes: &[u8], at: &mut usize) -> Result<u32, TreeError>
    requires within { at.old ≤ length bytes.now }
    ensures count { IfOk result (λ n. (1 ≤ n) × (n ≤ 10000)) }
    ensures on { IfOk result (λ n. Stands bytes.now at.old at.new (number n)) }
    ensures fault { IfErr result (λ e. IsValueFault (count_at at.old (drop at.old bytes.now)) e) }
{
    let place = *at as u64;
    let count = match read_number(bytes, at, 10_000) {
        Ok(count) => count as u32,
        Err(fault) => return Err(fault),
    };
    if count == 0 {
        return Err(TreeError::Zero { place });
    }
    Ok(count)
}

/// The piece at a place, before which some nodes stand, and the place after it; or its fault.
fn read_piece(
    alloc: Global,
    bytes: &[u8],
    at: &mut usize,
    nodes: &mut u32,
) -> Result<RowPiece, TreeError>
    requires within { at.old ≤ length bytes.now }
    ensures within { IfOk result (λ p. IsPieceStep nodes.old nodes.new (plain_piece p)) }
    ensures on { IfOk result (λ p. Stands bytes.now at.old at.new (piece_bytes (plain_piece p))) }
    ensures fault { IfErr result (λ e. IsValueFault (piece_at nodes.old at.old (drop at.old bytes.now)) e) }
{
    let from = match read_number(bytes, at, LAST_STEP) {
        Ok(from) => from as u32,
        Err(fault) => return Err(fault),
    };
    let to = match read_number(bytes, at, LAST_STEP) {
        Ok(to) => to as u32,
        Err(fault) => return Err(fault),
    };
    let claim = match read_claim(alloc, bytes, at) {
        Ok(claim) => claim,
        Err(fault) => return Err(fault),
    };
    match read_tree(alloc, bytes, at, LEVELS, nodes) {
        Ok(tree) => Ok(RowPiece {
            from,
            to,
            claim,
            tree,
        }),
        Err(fault) => Err(fault),
    }
}

/// Pieces, of which there are some number, and the place after them; or their first fault.
fn read_pieces(
    alloc: Global,
    bytes: &[u8],
    at: &mut usize,
    count: u32,
) -> Result<RowPieces, TreeError>
    requires within { at.old ≤ length bytes.now }
    ensures within { IfOk result (λ ps. (nodes : ℕ) × ArePieces count nodes (map plain_piece ps)) }
    ensures on { IfOk result (λ ps. Stands bytes.now at.old at.new (flat_map piece_bytes (map plain_piece ps))) }
    ensures fault { IfErr result (λ e. IsFault (pieces_at count 0 at.old (drop at.old bytes.now)) e) }
{
    let mut pieces = RowPieces::from_vec(Vec::new(alloc));
    let mut nodes = 0;
    for _ in 0..count {
        match read_piece(alloc, bytes, at, &mut nodes) {
            Ok(piece) => pieces.push(piece)?,
            Err(fault) => return Err(fault),
        }
    }
    Ok(pieces)
}

/// The pieces of all bytes, or their first fault.
fn read_rows(alloc: Global, bytes: &[u8]) -> Result<RowPieces, TreeError>
    ensures read { IfOk result (λ ps. SpellsRows bytes.now (map plain_piece ps)) }
    ensures refused { IfErr result (λ e. IsRowRefusal bytes.now e) }
{
    let mut at = 0;
    match read_opening(bytes, &mut at, &[0x49, 0x50, 0x53, 0x52, 0x01]) {
        Ok(()) => {}
        Err(fault) => return Err(fault),
    }
    let count = match read_count(bytes, &mut at) {
        Ok(count) => count,
        Err(fault) => return Err(fault),
    };
    let pieces = match read_pieces(alloc, bytes, &mut at, count) {
        Ok(pieces) => pieces,
        Err(fault) => return Err(fault),
    };
    if at < bytes.len() {
        return Err(TreeError::Tail { place: at as u64 });
    }
    Ok(pieces)
}

/// The proof of a row sweep that bytes spell, all of the bytes, or their first fault.
pub fn decode_rows(alloc: Global, bytes: &[u8]) -> Result<RowSweep, TreeError>
    ensures spelled { IfOk result (λ sweep. SpellsRows bytes.now (map plain_piece sweep.pieces)) }
    ensures only { (ps : List PlainPiece) → SpellsRows bytes.now ps
        → IfOk result (λ sweep. map plain_piece sweep.pieces ≡ ps) × IfErr result (λ e. e ≡ TreeError.Memory) }
    ensures refused { IfErr result (λ e. IsRowRefusal bytes.now e) }
{
    match read_rows(alloc, bytes) {
        Ok(pieces) => Ok(RowSweep { pieces }),
        Err(fault) => Err(fault),
    }
}
