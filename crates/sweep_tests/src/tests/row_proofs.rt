//! Proofs of two row sweeps, whole and spoiled, and their verdicts.
ghost use Rattle.std.specs.Prelude.{◌≤◌, ◌^◌, IsTrue};
ghost use Rattle.std.specs.Int.RustNames.{unsigned_abs};
ghost use Rattle.perturbation.specs.Lines.{IsSide};

use ip_defs::{Cert, Multipliers};
use ip_model::IntModel;
use leaf_cert::scratch;
use perturbation::row_line;
use sample_models::{SampleError, column, model, row};
use std::alloc::{Alloc, Global};
use sweep_proof::{
    Bound, Breach, Claim, Memory, Place, Point, RowPiece, RowPieces, RowSweep, SweepVerdict, Tree,
    check_row_sweep, row_sweep_fits,
};

/// A piece with one column and a tree of one leaf: its steps, the coordinate of its point, or None for emptiness, and the divisor and
/// the multiplier of its certificate, or 0 for none.
type Piece = (u32, u32, Option<i64>, i64, i64);

/// A sweep: cost, upper bound and coefficient of the one column, the sides of the one row, the direction and the last step.
struct Line {
    column: (i64, i64, i64),
    sides: (Option<i64>, Option<i64>),
    dir: (Place, i64),
    steps: u32,
}

fn model_of(alloc: Global, line: &Line) -> Result<IntModel, SampleError> {
    let (cost, hi, coef) = line.column;
    let (low, high) = line.sides;
    let mut columns = Vec::new(alloc);
    columns.push(column(alloc, cost, 0, hi))?;
    let mut rows = Vec::new(alloc);
    rows.push(row(alloc, &[(0, coef)], low, high)?)?;
    model(alloc, columns, rows)
}

fn claim_of(alloc: Global, coordinate: Option<i64>) -> Result<Claim, Memory> {
    match coordinate {
        Some(x) => Ok(Claim::Best(Point::from_vec(Vec::from_slice(alloc, &[x])?))),
        None => Ok(Claim::Empty),
    }
}

fn leaf(alloc: Global, q: i64, multiplier: i64) -> Result<Tree, Memory> {
    let y = if multiplier == 0 {
        Vec::new(alloc)
    } else {
        Vec::from_slice(alloc, &[(0, multiplier)])?
    };
    Ok(Tree::Leaf(Cert {
        q,
        y: Multipliers::from_vec(y),
    }))
}

fn sweep_of(alloc: Global, pieces: &[Piece]) -> Result<RowSweep, Memory> {
    let mut list = RowPieces::from_vec(Vec::new(alloc));
    for (from, to, coordinate, q, multiplier) in pieces {
        let piece = RowPiece {
            from: *from,
            to: *to,
            claim: claim_of(alloc, *coordinate)?,
            tree: leaf(alloc, *q, *multiplier)?,
        };
        list.push(piece)?;
    }
    Ok(RowSweep { pieces: list })
}

/// Whether a place is a side of the one row of a model.
fn has_side(model: &IntModel, place: Place) -> bool
    ensures { IsTrue result → IsSide model.now place }
{
    match (place, model.parts().rows.as_slice().get(0)) {
        (Place::Low(0), Some(row)) => row.low.is_some(),
        (Place::High(0), Some(row)) => row.high.is_some(),
        _ => false,
    }
}

/// The verdict on a proof that fits, where no side exceeds its limit at the last step.
fn verdict_on(
    alloc: Global,
    model: &IntModel,
    dir: (Place, i64),
    steps: u32,
    sweep: &RowSweep,
) -> Option<SweepVerdict>
    requires step { unsigned_abs dir.1 ≤ 2 ^ 62 }
    requires steps { steps ≤ 10 ^ 6 }
{
    if !row_sweep_fits(model, sweep) || !has_side(model, dir.0) {
        return None;
    }
    let dir = [dir];
    match (row_line(alloc, model, &dir, steps), scratch(alloc, model)) {
        (Ok(_), Ok(mut scratch)) => {
            if scratch.area.as_slice().len() != model.parts().columns.as_slice().len() {
                return None;
            }
            check_row_sweep(alloc, model, &dir, steps, sweep, &mut scratch).ok()
        }
        _ => None,
    }
}

/// The verdict on pieces.
fn verdict(alloc: Global, line: &Line, pieces: &[Piece]) -> Option<SweepVerdict> {
    if line.steps > 1_000_000 || line.dir.1.unsigned_abs() > 1 << 62 {
        return None;
    }
    match (model_of(alloc, line), sweep_of(alloc, pieces)) {
        (Ok(model), Ok(sweep)) => verdict_on(alloc, &model, line.dir, line.steps, &sweep),
        _ => None,
    }
}

/// Least x, where x >= 2 is relaxed step by step and x is from 0 to 1: no point, then 1, then 0.
const RELAXED: Line = Line {
    column: (1, 1, 1),
    sides: (Some(2), None),
    dir: (Place::Low(0), -1),
    steps: 2,
};

/// Least -x, where 2x <= 1 becomes 2x <= 2 and x is from 0 to 3: 0, then -1.
const WIDENED: Line = Line {
    column: (-1, 3, 2),
    sides: (None, Some(1)),
    dir: (Place::High(0), 1),
    steps: 1,
};

const EMPTY_FIRST: Piece = (0, 0, None, 0, 1);

const ONE_NEXT: Piece = (1, 1, Some(1), 1, 1);

const ZERO_LAST: Piece = (2, 2, Some(0), 1, 0);

const ZERO_FIRST: Piece = (0, 0, Some(0), 2, -1);

const ONE_LAST: Piece = (1, 1, Some(1), 2, -1);

const MIDDLE: SweepVerdict = SweepVerdict::Cover { piece: 1 };

/// Sweeps, pieces and verdicts.
const CASES: [(&Line, &[Piece], SweepVerdict); 10] = [
    (
        &RELAXED,
        &[EMPTY_FIRST, ONE_NEXT, ZERO_LAST],
        SweepVerdict::Proved,
    ),
    (&WIDENED, &[ZERO_FIRST, ONE_LAST], SweepVerdict::Proved),
    // emptiness in the middle, a piece that begins late, one that ends late, and one that ends early
    (
        &RELAXED,
        &[EMPTY_FIRST, (1, 1, None, 0, 1), ZERO_LAST],
        MIDDLE,
    ),
    (&RELAXED, &[EMPTY_FIRST, ZERO_LAST], MIDDLE),
    (&WIDENED, &[(0, 1, Some(0), 2, -1), ONE_LAST], MIDDLE),
    (&RELAXED, &[EMPTY_FIRST, ONE_NEXT], MIDDLE),
    // a point that breaks the row
    (
        &WIDENED,
        &[(0, 0, Some(1), 2, -1), ONE_LAST],
        SweepVerdict::Breach {
            piece: 0,
            place: Breach::Row(0),
        },
    ),
    // values that stay equal
    (
        &WIDENED,
        &[ZERO_FIRST, (1, 1, Some(0), 2, -1)],
        SweepVerdict::Fall {
            piece: 1,
            left: 0,
            right: 0,
        },
    ),
    // bounds at the last step that are below the claim
    (
        &WIDENED,
        &[(0, 1, Some(0), 2, -1)],
        SweepVerdict::Short {
            piece: 0,
            bound: Bound::At(-1),
            claim: Some(0),
        },
    ),
    (
        &RELAXED,
        &[(0, 1, None, 0, 1), ZERO_LAST],
        SweepVerdict::Short {
            piece: 0,
            bound: Bound::At(0),
            claim: None,
        },
    ),
];

#[test]
fn verdicts_on_row_sweeps(rt: HostRuntime) {
    for (line, pieces, want) in &CASES {
        assert!(rt; verdict(rt.alloc(), *line, *pieces) == Some(*want));
    }
}
