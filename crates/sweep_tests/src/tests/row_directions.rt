//! The directions of sweep files in a model of three rows: their moves, and why they are refused.

use ip_defs::{Coefs, Memory, Name, Row};
use ip_model::{IntModel, Place};
use question_text::{Sweep, read_sweep};
use sample_models::{SampleError, model};
use std::alloc::{Alloc, Global};
use sweep_directions::{Directions, EditError, row_directions};

/// The most bytes of a text of these tests.
const MOST: usize = 100;

fn row(
    alloc: Global,
    name: &str,
    decimals: u8,
    low: Option<i64>,
    high: Option<i64>,
) -> Result<Row, Memory> {
    Ok(Row {
        name: Name::new(String::from_str(alloc, name)?),
        decimals,
        coefs: Coefs::from_vec(Vec::new(alloc)),
        low,
        high,
    })
}

/// A row r with a high side alone, a row s in units of tenths, and a row t near the limits of its sides.
fn model_of(alloc: Global) -> Result<IntModel, SampleError> {
    let most = 1 << 62;
    let mut rows = Vec::new(alloc);
    rows.push(row(alloc, "r", 0, None, Some(3))?)?;
    rows.push(row(alloc, "s", 1, Some(-10), Some(40))?)?;
    rows.push(row(alloc, "t", 0, Some(6 - most), Some(most - 6))?)?;
    model(alloc, Vec::new(alloc), rows)
}

/// The directions of a text; `Memory` also where it is too long or no sweep of row sides, which no case expects.
fn directions(alloc: Global, model: &IntModel, text: &[u8]) -> Result<Directions, EditError> {
    if text.len() > MOST {
        return Err(EditError::Memory);
    }
    match read_sweep(alloc, text) {
        Ok(Sweep::Rows { steps, dir }) => row_directions(alloc, model, &dir, steps),
        _ => Err(EditError::Memory),
    }
}

fn is_refused(directions: Result<Directions, EditError>, refusal: EditError) -> bool {
    match directions {
        Ok(_) => false,
        Err(error) => error == refusal,
    }
}

fn moves(directions: Result<Directions, EditError>, moves: &[(Place, i64)]) -> bool {
    match directions {
        Ok(directions) => directions.as_slice() == moves,
        Err(_) => false,
    }
}

/// Sweeps and why their directions are refused.
const REFUSED: [(&[u8], EditError); 16] = [
    (b"rows 3\nhigh q 1\nend", EditError::UnknownName { edit: 1 }),
    (b"rows 3\nlow r -1\nend", EditError::NoSide { edit: 1 }),
    (b"rows 3\nhigh r 0.5\nend", EditError::OffGrid { edit: 1 }),
    (b"rows 3\nhigh s 0.25\nend", EditError::OffGrid { edit: 1 }),
    (b"rows 3\nhigh r 1e400\nend", EditError::Limit { edit: 1 }),
    // a number past 2^62, also where no step is made, and in tenths
    (
        b"rows 0\nhigh r 4611686018427387905\nend",
        EditError::Limit { edit: 1 },
    ),
    (
        b"rows 0\nlow s -461168601842738790.5\nend",
        EditError::Limit { edit: 1 },
    ),
    // a side that passes its limit at the last step alone
    (b"rows 4\nhigh t 2\nend", EditError::Limit { edit: 1 }),
    (b"rows 7\nlow t -1\nend", EditError::Limit { edit: 1 }),
    (
        b"rows 1\nhigh r 1\nhigh t 7\nend",
        EditError::Limit { edit: 2 },
    ),
    // the first that fails, counted from 1
    (
        b"rows 1\nhigh r 1\nlow q -1\nhigh q 1\nend",
        EditError::UnknownName { edit: 2 },
    ),
    (
        b"rows 1\nhigh r inf\nlow t -inf\nend",
        EditError::Limit { edit: 1 },
    ),
    // an earlier test of a later direction
    (
        b"rows 1\nhigh r inf\nlow q -1\nend",
        EditError::UnknownName { edit: 2 },
    ),
    (
        b"rows 1\nhigh r 0.5\nlow r -1\nend",
        EditError::NoSide { edit: 2 },
    ),
    (
        b"rows 1\nhigh r inf\nhigh s 0.25\nend",
        EditError::OffGrid { edit: 2 },
    ),
    (
        b"rows 9\nhigh t 2\nhigh r 0.5\nlow q 0\nend",
        EditError::UnknownName { edit: 3 },
    ),
];

#[test]
fn refused_directions(rt: HostRuntime) -> Result<(), SampleError> {
    let alloc = rt.alloc();
    let model = model_of(alloc)?;
    for (text, refusal) in &REFUSED {
        assert!(rt; is_refused(directions(alloc, &model, text), *refusal));
    }
    Ok(())
}

/// Sweeps and the moves of their sides.
const MOVED: [(&[u8], &[(Place, i64)]); 7] = [
    (b"rows 3\nend", &[]),
    (
        b"rows 2\nhigh s 0.5\nlow t -2\nhigh r 1\nend",
        &[
            (Place::High(1), 5),
            (Place::Low(2), -2),
            (Place::High(0), 1),
        ],
    ),
    // both sides of a row, and the last step on the limit
    (
        b"rows 3\nhigh t 2\nlow t -2\nend",
        &[(Place::High(2), 2), (Place::Low(2), -2)],
    ),
    (b"rows 1\nlow s -10e-1\nend", &[(Place::Low(1), -10)]),
    (
        b"rows 5\nhigh r 0\nlow s -0\nend",
        &[(Place::High(0), 0), (Place::Low(1), 0)],
    ),
    // no step, so the side stays
    (
        b"rows 0\nhigh t 4611686018427387904\nend",
        &[(Place::High(2), 4_611_686_018_427_387_904)],
    ),
    (
        b"rows 1000000\nhigh r 4e12\nend",
        &[(Place::High(0), 4_000_000_000_000)],
    ),
];

#[test]
fn moved_sides(rt: HostRuntime) -> Result<(), SampleError> {
    let alloc = rt.alloc();
    let model = model_of(alloc)?;
    for (text, sides) in &MOVED {
        assert!(rt; moves(directions(alloc, &model, text), sides));
    }
    Ok(())
}
