//! Small files of row sweeps, whole, cut and hostile: what they are read as, and their faults.
ghost use Rattle.std.specs.Prelude.{◌≤◌};

use std::alloc::{Alloc, Global};
use tree_format::{Memory, RowSweep, TreeError, decode_rows, encode_rows};

/// Two pieces, of the steps 0 and 1: the points 0 and 1, each with one leaf of divisor 2 and the multiplier -1 of row 0.
const TWO_PIECES: [u8; 26] = [
    0x49, 0x50, 0x53, 0x52, 0x01, 0x02, 0x00, 0x00, 0x42, 0x01, 0x00, 0x4c, 0x02, 0x01, 0x00, 0x01,
    0x01, 0x01, 0x42, 0x01, 0x02, 0x4c, 0x02, 0x01, 0x00, 0x01,
];

/// The fault of bytes, or none where they are read.
fn fault(alloc: Global, bytes: &[u8]) -> Option<TreeError> {
    decode_rows(alloc, bytes).err()
}

/// The fault of the file with some of its bytes replaced, from a place on.
fn fault_with(alloc: Global, at: usize, others: &[u8], from: usize) -> Option<TreeError>
    requires kept { at ≤ 26 }
    requires others { from ≤ 26 }
{
    match joined(alloc, &TWO_PIECES[..at], others, &TWO_PIECES[from..]) {
        Ok(bytes) => fault(alloc, bytes.as_slice()),
        Err(_) => Some(TreeError::Memory),
    }
}

/// Bytes one after another.
fn joined(alloc: Global, first: &[u8], second: &[u8], third: &[u8]) -> Result<Vec<u8>, Memory> {
    let mut bytes = Vec::from_slice(alloc, first)?;
    bytes.extend_from_slice(second)?;
    bytes.extend_from_slice(third)?;
    Ok(bytes)
}

/// The first and the last step of each of two pieces.
fn steps(sweep: &RowSweep) -> Option<(u32, u32, u32, u32)> {
    match sweep.pieces.as_slice() {
        [first, second] => Some((first.from, first.to, second.from, second.to)),
        _ => None,
    }
}

/// The steps of the pieces that bytes spell.
fn steps_of(alloc: Global, bytes: &[u8]) -> Option<(u32, u32, u32, u32)> {
    match decode_rows(alloc, bytes) {
        Ok(sweep) => steps(&sweep),
        Err(_) => None,
    }
}

#[test]
fn steps_of_pieces(rt: HostRuntime) {
    assert!(rt; steps_of(rt.alloc(), &TWO_PIECES) == Some((0, 0, 1, 1)));
    let mut bytes = TWO_PIECES;
    bytes[6] = 3;
    bytes[7] = 4;
    bytes[16] = 2;
    assert!(rt; steps_of(rt.alloc(), &bytes) == Some((3, 4, 2, 1)));
}

#[test]
fn cut_rows(rt: HostRuntime) {
    for n in 0..26usize {
        let want = Some(TreeError::Cut { place: n as u64 });
        assert!(rt; fault(rt.alloc(), &TWO_PIECES[..n]) == want);
    }
}

#[test]
fn hostile_rows(rt: HostRuntime) {
    let alloc = rt.alloc();
    // a tree file; no piece; one piece fewer, one more; 10,001 pieces; a spelling of 2 that is not the shortest
    assert!(rt; fault_with(alloc, 3, &[0x54], 4) == Some(TreeError::Magic { place: 3 }));
    assert!(rt; fault_with(alloc, 5, &[0x00], 6) == Some(TreeError::Zero { place: 5 }));
    assert!(rt; fault_with(alloc, 5, &[0x01], 6) == Some(TreeError::Tail { place: 16 }));
    assert!(rt; fault_with(alloc, 5, &[0x03], 6) == Some(TreeError::Cut { place: 26 }));
    assert!(rt; fault_with(alloc, 5, &[0x91, 0x4e], 6) == Some(TreeError::Width { place: 5 }));
    assert!(rt; fault_with(alloc, 5, &[0x82, 0x00], 6) == Some(TreeError::LongNumber { place: 5 }));
    // a last step of a million is not too wide, one more is
    assert!(rt; fault_with(alloc, 7, &[0xc0, 0x84, 0x3d], 8) == None);
    assert!(rt;
        fault_with(alloc, 7, &[0xc1, 0x84, 0x3d], 8) == Some(TreeError::Width { place: 7 })
    );
    // a claim and a node of another kind, a row twice, a multiplier of 0, a byte after the end
    assert!(rt; fault_with(alloc, 18, &[0x43], 19) == Some(TreeError::Tag { place: 18 }));
    assert!(rt; fault_with(alloc, 21, &[0x4d], 22) == Some(TreeError::Tag { place: 21 }));
    assert!(rt;
        fault_with(alloc, 23, &[0x02, 0x00, 0x01], 24) == Some(TreeError::Order { place: 26 })
    );
    assert!(rt; fault_with(alloc, 25, &[0x00], 26) == Some(TreeError::Zero { place: 25 }));
    assert!(rt; fault_with(alloc, 26, &[0x00], 26) == Some(TreeError::Tail { place: 26 }));
}

/// Whether the sweep that bytes spell is written as the same bytes.
fn is_written_back(alloc: Global, bytes: &[u8]) -> Result<bool, TreeError> {
    let sweep = decode_rows(alloc, bytes)?;
    let written = encode_rows(alloc, &sweep)?;
    Ok(written.as_slice() == bytes)
}

#[test]
fn written_rows(rt: HostRuntime) {
    assert!(rt; is_written_back(rt.alloc(), &TWO_PIECES) == Ok(true));
}
