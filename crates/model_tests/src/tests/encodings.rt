//! Small files, whole, cut and hostile: what they are read as, and their faults.
use sample_models::{ONE_LEAF, TWO_SPLITS};
use std::alloc::{Alloc, Global};
use tree_format::{Memory, Token, TreeError, TreeReader, decode, encode, tree_reader};

/// The fault of bytes, or none where they are read.
fn fault(alloc: Global, bytes: &[u8]) -> Option<TreeError> {
    decode(alloc, bytes).err()
}

/// The fault of bytes, where memory sufficed for them.
fn fault_of(alloc: Global, bytes: Result<Vec<u8>, Memory>) -> Option<TreeError> {
    match bytes {
        Ok(bytes) => fault(alloc, bytes.as_slice()),
        Err(_) => Some(TreeError::Memory),
    }
}

#[test]
fn cut_files(rt: HostRuntime) {
    for n in 0..17usize {
        let want = Some(TreeError::Cut { place: n as u64 });
        assert!(rt; fault(rt.alloc(), &ONE_LEAF[..n]) == want);
    }
}

/// Bytes one after another.
fn joined(alloc: Global, pieces: &[&[u8]]) -> Result<Vec<u8>, Memory> {
    let mut bytes = Vec::new(alloc);
    for piece in pieces {
        bytes.extend_from_slice(*piece)?;
    }
    Ok(bytes)
}

/// The fault of the first file with other bytes from byte 11 on, where its leaf has the divisor.
fn fault_with_divisor(alloc: Global, number: &[u8]) -> Option<TreeError> {
    fault_of(
        alloc,
        joined(alloc, &[&ONE_LEAF[..11], number, &ONE_LEAF[12..]]),
    )
}

/// The fault of a number that exceeds 2^36, and that of one longer than its shortest spelling.
const WIDE: Option<TreeError> = Some(TreeError::Width { place: 11 });

const LONG: Option<TreeError> = Some(TreeError::LongNumber { place: 11 });

/// Spellings of a divisor and their faults.
const NUMBERS: [(&[u8], Option<TreeError>); 4] = [
    (&[0x80, 0x80, 0x80, 0x80, 0x80, 0x80, 0x01], WIDE),
    // 2^36, and 1 more
    (&[0x80, 0x80, 0x80, 0x80, 0x80, 0x02], None),
    (&[0x81, 0x80, 0x80, 0x80, 0x80, 0x02], WIDE),
    (&[0x81, 0x00], LONG),
];

#[test]
fn long_numbers(rt: HostRuntime) {
    for (number, want) in &NUMBERS {
        assert!(rt; fault_with_divisor(rt.alloc(), *number) == *want);
    }
}

/// The start of the second file and 802 splits, each at the left of the one before it.
fn deep_file(alloc: Global) -> Result<Vec<u8>, Memory> {
    let mut bytes = Vec::from_slice(alloc, &TWO_SPLITS[..6])?;
    for _ in 0..802 {
        bytes.extend_from_slice(&[0x53, 0x00, 0x00])?;
    }
    Ok(bytes)
}

#[test]
fn deep_files(rt: HostRuntime) {
    let want = Some(TreeError::TooDeep { place: 2409 });
    assert!(rt; fault_of(rt.alloc(), deep_file(rt.alloc())) == want);
}

/// Whether the proof that bytes spell is written as the same bytes.
fn is_written_again(alloc: Global, bytes: &[u8]) -> bool {
    match decode(alloc, bytes) {
        Ok(proof) => match encode(alloc, &proof) {
            Ok(again) => again.as_slice() == bytes,
            Err(_) => false,
        },
        Err(_) => false,
    }
}

#[test]
fn files_written_again(rt: HostRuntime) {
    assert!(rt; is_written_again(rt.alloc(), &ONE_LEAF));
    assert!(rt; is_written_again(rt.alloc(), &TWO_SPLITS));
}

/// Whether bytes give these parts of a proof, one after another.
fn gives(reader: &mut TreeReader, bytes: &[u8], want: &[Token]) -> bool {
    let mut count = 0usize;
    for byte in bytes {
        match reader.step(*byte) {
            Ok(Token::Nothing) | Err(_) => {}
            Ok(part) => {
                if want.get(count) != Some(&part) {
                    return false;
                }
                count += 1;
            }
        }
    }
    count == want.len()
}

/// Whether each byte after the 17 of the first file is refused, and the end after them.
fn refuses_more(reader: &mut TreeReader) -> bool {
    let tail = TreeError::Tail { place: 17 };
    for _ in 0..2 {
        if reader.step(0) != Err(tail) {
            return false;
        }
    }
    reader.close() == Err(tail)
}

/// The parts of the first file.
const PARTS: [Token; 8] = [
    Token::Claimed,
    Token::Coordinate(2),
    Token::Coordinate(0),
    Token::Coordinate(1),
    Token::LeafQ(1),
    Token::Parts(2),
    Token::Part {
        row: 0,
        multiplier: -1,
    },
    Token::Part {
        row: 2,
        multiplier: -1,
    },
];

#[test]
fn bytes_one_by_one(rt: HostRuntime) -> Result<(), Memory> {
    let mut reader = tree_reader(rt.alloc())?;
    assert!(rt; gives(&mut reader, &ONE_LEAF, PARTS.as_slice()));
    assert!(rt; reader.claims_point());
    assert!(rt; reader.close() == Ok(()));
    assert!(rt; refuses_more(&mut reader));
    Ok(())
}
