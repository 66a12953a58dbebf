//! Verdicts on proofs from their bytes, whole and in pieces.
ghost use Rattle.proof_tree.specs.Trees.{plain};
ghost use Rattle.proof_tree.specs.Within.{IsTreeWithin};

use ip_model::IntModel;
use leaf_cert::scratch;
use proof_tree::fits_model;
use sample_models::{ONE_LEAF, SampleError, TWO_SPLITS, parity, three_rows};
use std::alloc::{Alloc, Global};
use tree_checker::{
    Bound, Breach, Proof, Shape, ShapeWhat, StreamCheck, StreamError, TreeError, Verdict, check,
    stream,
};
use tree_format::decode;

/// The verdict on a proof that fits.
fn verdict_on(alloc: Global, model: &IntModel, proof: &Proof) -> Option<Verdict>
    requires { IsTreeWithin (plain proof.now.tree) }
{
    if fits_model(model, proof).is_err() {
        return None;
    }
    match scratch(alloc, model) {
        Ok(mut scratch) => {
            if scratch.area.as_slice().len() != model.parts().columns.as_slice().len() {
                return None;
            }
            Some(check(alloc, model, proof, &mut scratch))
        }
        Err(_) => None,
    }
}

/// The verdict on the proof that bytes spell, where they spell one that fits.
fn verdict(alloc: Global, model: Result<IntModel, SampleError>, bytes: &[u8]) -> Option<Verdict> {
    match (model, decode(alloc, bytes)) {
        (Ok(model), Ok(proof)) => verdict_on(alloc, &model, &proof),
        _ => None,
    }
}

/// The leaf with one byte changed, none where its place is 17.
fn changed(place: usize, byte: u8) -> [u8; 17] {
    let mut bytes = ONE_LEAF;
    if let Some(old) = bytes.get_mut(place) {
        *old = byte;
    }
    bytes
}

/// The place and the value of a changed byte, and the verdict.
const VERDICTS: [(usize, u8, Verdict); 2] = [
    (17, 0, Verdict::Proved { cost: Some(-13) }),
    (8, 6, Verdict::NotFeasible(Breach::Row(0))),
];

#[test]
fn verdicts_of_files(rt: HostRuntime) {
    let alloc = rt.alloc();
    for (place, byte, want) in &VERDICTS {
        let got = verdict(alloc, three_rows(alloc), &changed(*place, *byte));
        assert!(rt; got == Some(*want));
    }
}

/// Feeds pieces up to the first fault.
fn feed_all(check: &mut StreamCheck<'_>, pieces: &[&[u8]]) -> Result<(), TreeError> {
    for piece in pieces {
        check.feed(*piece)?;
    }
    Ok(())
}

/// The answer after what was fed.
fn end_of(check: StreamCheck<'_>, fed: Result<(), TreeError>) -> Result<Verdict, StreamError> {
    match fed {
        Ok(()) => check.end(),
        Err(fault) => Err(StreamError::Tree(fault)),
    }
}

/// The answer to bytes in two pieces over a model.
fn in_two(
    alloc: Global,
    model: &IntModel,
    first: &[u8],
    second: &[u8],
) -> Result<Verdict, StreamError> {
    match stream(alloc, model) {
        Ok(mut check) => {
            let fed = feed_all(&mut check, &[first, second]);
            end_of(check, fed)
        }
        Err(_) => Err(StreamError::Tree(TreeError::Memory)),
    }
}

/// As `in_two`, over a model for which memory sufficed.
fn answer(
    alloc: Global,
    model: Result<IntModel, SampleError>,
    first: &[u8],
    second: &[u8],
) -> Result<Verdict, StreamError> {
    match model {
        Ok(model) => in_two(alloc, &model, first, second),
        Err(_) => Err(StreamError::Tree(TreeError::Memory)),
    }
}

#[test]
fn files_in_two_pieces(rt: HostRuntime) {
    let alloc = rt.alloc();
    let want = Ok(Verdict::Proved { cost: Some(-13) });
    for place in 0..18usize {
        let (first, second) = (&ONE_LEAF[..place], &ONE_LEAF[place..]);
        assert!(rt; answer(alloc, three_rows(alloc), first, second) == want);
    }
}

/// Feeds bytes one by one up to the first fault.
fn feed_bytes(check: &mut StreamCheck<'_>, bytes: &[u8]) -> Result<(), TreeError> {
    for byte in bytes {
        check.feed(&[*byte])?;
    }
    Ok(())
}

/// The answer to bytes, one by one, over a model.
fn by_bytes(alloc: Global, model: &IntModel, bytes: &[u8]) -> Result<Verdict, StreamError> {
    match stream(alloc, model) {
        Ok(mut check) => {
            let fed = feed_bytes(&mut check, bytes);
            end_of(check, fed)
        }
        Err(_) => Err(StreamError::Tree(TreeError::Memory)),
    }
}

/// The answer to the second file, byte by byte, over the model of parity.
fn second_file_by_bytes(alloc: Global) -> Result<Verdict, StreamError> {
    match parity(alloc, 1) {
        Ok(model) => by_bytes(alloc, &model, &TWO_SPLITS),
        Err(_) => Err(StreamError::Tree(TreeError::Memory)),
    }
}

#[test]
fn files_byte_by_byte(rt: HostRuntime) {
    let want = Ok(Verdict::Proved { cost: None });
    assert!(rt; second_file_by_bytes(rt.alloc()) == want);
}

/// A multiplier of a row that the model does not have.
const ROW_NUMBER: Shape = Shape {
    node: 0,
    what: ShapeWhat::RowNumber,
};

/// A point of three coordinates for two columns.
const POINT_LENGTH: Shape = Shape {
    node: 0,
    what: ShapeWhat::PointLength,
};

/// The place and the value of a changed byte, and the answer: a multiplier of row 3, and one of the other sign.
const ANSWERS: [(usize, u8, Result<Verdict, StreamError>); 2] = [
    (15, 3, Err(StreamError::Shape(ROW_NUMBER))),
    (
        16,
        2,
        Ok(Verdict::Short {
            bound: Bound::At(-120),
            claim: Some(-13),
        }),
    ),
];

#[test]
fn misfits_and_short_bounds(rt: HostRuntime) {
    let alloc = rt.alloc();
    for (place, byte, want) in &ANSWERS {
        let bytes = changed(*place, *byte);
        let got = answer(alloc, three_rows(alloc), &bytes[..16], &bytes[16..]);
        assert!(rt; got == *want);
    }
    let want = Err(StreamError::Shape(POINT_LENGTH));
    let got = answer(alloc, parity(alloc, 1), &ONE_LEAF[..3], &ONE_LEAF[3..]);
    assert!(rt; got == want);
}

/// Whether each piece has the same fault.
fn keeps(check: &mut StreamCheck<'_>, pieces: &[&[u8]], fault: TreeError) -> bool {
    for piece in pieces {
        if check.feed(*piece) != Err(fault) {
            return false;
        }
    }
    true
}

/// Whether a fault of the first byte stays while bytes come and at their end.
fn magic_stays(alloc: Global, model: &IntModel) -> bool {
    let magic = TreeError::Magic { place: 0 };
    match stream(alloc, model) {
        Ok(mut check) => {
            let kept = keeps(&mut check, &[&[0x00], &ONE_LEAF, &[]], magic);
            kept && check.end() == Err(StreamError::Tree(magic))
        }
        Err(_) => false,
    }
}

#[test]
fn faults_that_stay(rt: HostRuntime) -> Result<(), SampleError> {
    let model = three_rows(rt.alloc())?;
    assert!(rt; magic_stays(rt.alloc(), &model));
    let cut = Err(StreamError::Tree(TreeError::Cut { place: 16 }));
    let got = in_two(rt.alloc(), &model, &ONE_LEAF[..5], &ONE_LEAF[5..16]);
    assert!(rt; got == cut);
    Ok(())
}
