//! Ranges of each kind of place, for both aims, against values that `tools/vectors/ranges.py` found by trying the changes one by one.
ghost use Rattle.std.specs.Prelude.{IsTrue};
ghost use Rattle.ip_model.specs.Places.{Exists};
ghost use Rattle.proof_tree.specs.Trees.{plain};
ghost use Rattle.proof_tree.specs.Within.{IsTreeWithin};

use ip_model::{IntModel, Place};
use leaf_cert::scratch;
use proof_tree::{Claim, Proof, fits_model};
use range_finder::{Aim, range};
use sample_models::{ONE_LEAF, SampleError, TWO_SPLITS, difference, no_rows, parity, three_rows};
use std::alloc::{Alloc, Global};
use tree_format::decode;

/// For `no_rows`: a claim of the point (0, 4), and a leaf without multipliers.
const BOX_LEAF: [u8; 12] = [
    0x49, 0x50, 0x53, 0x54, 0x01, 0x42, 0x02, 0x00, 0x08, 0x4c, 0x01, 0x00,
];

/// For `difference` with columns from 0 to 4: a claim of the point (1, 1), and a split of the first column over leaves without multipliers.
const ONE_SPLIT: [u8; 18] = [
    0x49, 0x50, 0x53, 0x54, 0x01, 0x42, 0x02, 0x02, 0x02, 0x53, 0x00, 0x02, 0x4c, 0x01, 0x00, 0x4c,
    0x01, 0x00,
];

/// A model with a proof.
#[derive(Clone, Copy)]
enum Sample {
    ThreeRows,
    NoRows,
    Parity,
    Band,
}

fn model_of(alloc: Global, sample: Sample) -> Result<IntModel, SampleError> {
    match sample {
        Sample::ThreeRows => three_rows(alloc),
        Sample::NoRows => no_rows(alloc),
        Sample::Parity => parity(alloc, 1),
        Sample::Band => difference(alloc, 4, -3, 5),
    }
}

fn bytes_of(sample: Sample) -> &'static [u8] {
    match sample {
        Sample::ThreeRows => &ONE_LEAF,
        Sample::NoRows => &BOX_LEAF,
        Sample::Parity => &TWO_SPLITS,
        Sample::Band => &ONE_SPLIT,
    }
}

/// Whether a place exists in a model.
fn exists(model: &IntModel, place: Place) -> bool
    ensures { IsTrue result → Exists model.now place }
{
    let columns = model.parts().columns.as_slice();
    let rows = model.parts().rows.as_slice();
    match place {
        Place::Cost(j) | Place::Lower(j) | Place::Upper(j) => (j as usize) < columns.len(),
        Place::Low(i) => match rows.get(i as usize) {
            Some(row) => row.low.is_some(),
            None => false,
        },
        Place::High(i) => match rows.get(i as usize) {
            Some(row) => row.high.is_some(),
            None => false,
        },
        Place::Coef(i, j) => (i as usize) < rows.len() && (j as usize) < columns.len(),
    }
}

/// Whether the range of a place is the expected one: for the number to keep, or for the claimed point.
fn has_range(
    alloc: Global,
    model: &IntModel,
    proof: &Proof,
    place: Place,
    keep: Option<i128>,
    want: Option<(i128, i128)>,
) -> bool
    requires { IsTreeWithin (plain proof.now.tree) }
{
    if fits_model(model, proof).is_err() || !exists(model, place) {
        return false;
    }
    let aim = match (keep, &proof.claim) {
        (Some(number), _) => Aim::Keep(number),
        (None, Claim::Best(point)) => Aim::StayBest(point),
        (None, Claim::Empty) => return false,
    };
    match scratch(alloc, model) {
        Ok(mut scratch) => {
            scratch.area.as_slice().len() == model.parts().columns.as_slice().len()
                && range(alloc, model, &proof.tree, place, aim, &mut scratch) == want
        }
        Err(_) => false,
    }
}

/// As `has_range`, for a sample.
fn is_range(
    alloc: Global,
    sample: Sample,
    place: Place,
    keep: Option<i128>,
    want: Option<(i128, i128)>,
) -> bool {
    match (model_of(alloc, sample), decode(alloc, bytes_of(sample))) {
        (Ok(model), Ok(proof)) => has_range(alloc, &model, &proof, place, keep, want),
        _ => false,
    }
}

/// What a range is asked of, the number to keep if any, and the range.
const RANGES: [(Sample, Place, Option<i128>, Option<(i128, i128)>); 28] = [
    (Sample::ThreeRows, Place::High(0), None, Some((0, 0))),
    (
        Sample::ThreeRows,
        Place::Upper(0),
        None,
        Some((-8, 16777206)),
    ),
    (
        Sample::ThreeRows,
        Place::Cost(1),
        None,
        Some((-3, 1099511627780)),
    ),
    (
        Sample::ThreeRows,
        Place::High(1),
        None,
        Some((-1, 4611686018427387893)),
    ),
    (Sample::ThreeRows, Place::Cost(0), None, Some((0, 0))),
    (Sample::ThreeRows, Place::Coef(0, 0), None, Some((0, 0))),
    (
        Sample::ThreeRows,
        Place::Coef(0, 1),
        None,
        Some((-3, 1099511627773)),
    ),
    (
        Sample::ThreeRows,
        Place::Coef(1, 2),
        None,
        Some((-1099511627778, 1)),
    ),
    (Sample::ThreeRows, Place::Lower(1), None, Some((0, 0))),
    (
        Sample::ThreeRows,
        Place::High(2),
        Some(-16),
        Some((-4611686018427387912, 3)),
    ),
    (
        Sample::ThreeRows,
        Place::Coef(2, 1),
        Some(-15),
        Some((-3, 1099511627772)),
    ),
    (Sample::ThreeRows, Place::Lower(0), Some(-10), None),
    (
        Sample::NoRows,
        Place::Cost(0),
        None,
        Some((-2, 1099511627774)),
    ),
    (
        Sample::NoRows,
        Place::Cost(1),
        Some(-6),
        Some((0, 1099511627777)),
    ),
    (Sample::NoRows, Place::Cost(1), Some(-3), None),
    (Sample::NoRows, Place::Upper(1), None, Some((0, 0))),
    (
        Sample::Parity,
        Place::Low(0),
        Some(1),
        Some((0, 4611686018427387903)),
    ),
    (
        Sample::Parity,
        Place::High(0),
        Some(1),
        Some((-4611686018427387905, 0)),
    ),
    (Sample::Parity, Place::Coef(0, 0), Some(1), Some((0, 0))),
    (
        Sample::Parity,
        Place::Cost(1),
        Some(7),
        Some((-1099511627776, 1099511627776)),
    ),
    (
        Sample::Parity,
        Place::Upper(0),
        Some(1),
        Some((-16777217, 0)),
    ),
    (
        Sample::Parity,
        Place::Lower(1),
        Some(1),
        Some((0, 16777216)),
    ),
    (
        Sample::Band,
        Place::Low(0),
        None,
        Some((-4611686018427387901, 3)),
    ),
    (
        Sample::Band,
        Place::High(0),
        None,
        Some((-5, 4611686018427387899)),
    ),
    (Sample::Band, Place::Coef(0, 1), None, Some((-3, 5))),
    (Sample::Band, Place::Lower(0), None, Some((-16777216, 1))),
    (Sample::Band, Place::Cost(1), None, Some((0, 0))),
    (
        Sample::Band,
        Place::Cost(0),
        Some(-9),
        Some((-2, 1099511627776)),
    ),
];

#[test]
fn ranges(rt: HostRuntime) {
    let alloc = rt.alloc();
    for (sample, place, keep, want) in &RANGES {
        assert!(rt; is_range(alloc, *sample, *place, *keep, *want));
    }
}
