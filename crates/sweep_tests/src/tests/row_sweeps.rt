//! Small row sweeps, against values that `tools/vectors/sweeps.py` found by trying every point of the box at each step.
ghost use Rattle.std.specs.Prelude.{◌≡◌, ◌^◌, ◌<◌, ◌≤◌, None};
ghost use Rattle.std.specs.Bool.{OnTrue};
ghost use Rattle.std.specs.Int.RustNames.{unsigned_abs};
ghost use Rattle.ip_model.specs.Sizes.{first_crossed};
ghost use Rattle.perturbation.specs.Lines.{IsSide};
ghost use Rattle.sweep_proof.specs.RowSweeps.{MovesOutwards};

use crate::tests::drawn_sweeps::{Drawn, draw_sweep};
use branching::{Limits, Steps};
use ip_model::{IntModel, Place, allowance, cost, crossed};
use perturbation::row_line;
use rhs_sweep::{RowStop, sweep_rows};
use std::alloc::{Alloc, Global};
use std::marker::Brand;
use std::sync::ledger::{Blank, Ledger};
use sweep_proof::{Claim, RowPiece, RowSweep};

/// The first and the last step of a piece, and its value; None where no point is feasible.
type Piece = (u32, u32, Option<i128>);

/// Whether a row has the side of a place.
fn has_side(model: &IntModel, place: Place) -> bool
    ensures { OnTrue result (IsSide model.now place) }
{
    let rows = model.parts().rows.as_slice();
    match place {
        Place::Low(i) => match rows.get(i as usize) {
            Some(row) => row.low.is_some(),
            None => false,
        },
        Place::High(i) => match rows.get(i as usize) {
            Some(row) => row.high.is_some(),
            None => false,
        },
        _ => false,
    }
}

/// Whether a side moves outwards or stays.
fn moves_outwards(place: Place, step: i64) -> bool
    ensures { OnTrue result (MovesOutwards place step) }
{
    match place {
        Place::Low(_) => step <= 0,
        Place::High(_) => step >= 0,
        _ => false,
    }
}

/// Whether a model may be swept along one side.
fn may_move(model: &IntModel, side: (Place, i64)) -> bool
    ensures side { OnTrue result (IsSide model.now side.0) }
    ensures outwards { OnTrue result (MovesOutwards side.0 side.1) }
    ensures small { OnTrue result (unsigned_abs side.1 ≤ 2 ^ 62) }
{
    side.1.unsigned_abs() <= 1 << 62 && has_side(model, side.0) && moves_outwards(side.0, side.1)
}

/// Whether a claim is of this value.
fn has_value(model: &IntModel, claim: &Claim, value: Option<i128>) -> bool {
    match (claim, value) {
        (Claim::Best(point), Some(value)) => {
            point.as_slice().len() == model.parts().columns.as_slice().len()
                && cost(model, point) == value
        }
        (Claim::Empty, None) => true,
        _ => false,
    }
}

/// Whether a piece is the expected one.
fn is_piece(model: &IntModel, piece: &RowPiece, wanted: &Piece) -> bool {
    piece.from == wanted.0 && piece.to == wanted.1 && has_value(model, &piece.claim, wanted.2)
}

/// Whether a sweep has the expected pieces.
fn has_pieces(model: &IntModel, sweep: &RowSweep, wanted: &[Piece]) -> bool {
    let pieces = sweep.pieces.as_slice();
    if pieces.len() != wanted.len() {
        return false;
    }
    for (piece, one) in pieces.iter().zip(wanted) {
        if !is_piece(model, piece, one) {
            return false;
        }
    }
    true
}

/// The sweep of a model along two sides within a number of nodes; None where it may not be swept so.
pub(super) fn swept<L: Ledger>(
    alloc: Global,
    sweep: &Drawn,
    nodes: u32,
    steps: &mut Steps<L>,
) -> Option<Result<RowSweep, RowStop>> {
    let Drawn { model, dir, last } = sweep;
    let [first, second] = *dir;
    if !may_move(model, first) || !may_move(model, second) {
        return None;
    }
    let limits = Limits {
        nodes: allowance(model, 1_000_000).min(nodes),
        depth: 800,
        pivots: 5_000,
    };
    if *last > 1_000_000 || limits.nodes == 0 || crossed(model).is_some() {
        return None;
    }
    if row_line(alloc, model, dir, *last).is_err() {
        return None;
    }
    Some(sweep_rows(alloc, model, dir, *last, limits, steps))
}

/// Whether a drawn sweep has the expected pieces.
fn sweeps<L: Ledger>(alloc: Global, sweep: &Drawn, wanted: &[Piece], steps: &mut Steps<L>) -> bool {
    match swept(alloc, sweep, 1_000_000, steps) {
        Some(Ok(found)) => has_pieces(&sweep.model, &found, wanted),
        _ => false,
    }
}

/// Whether a drawn sweep with a counter of its own has the expected pieces.
fn sweeps_counted<L: Ledger>(alloc: Global, sweep: &Drawn, wanted: &[Piece], blank: Blank) -> bool
    requires some { 0 < L.parts }
    requires parts { blank.parts ≡ L.parts }
    requires name { blank.name ≡ L.name }
{
    let mut steps = Steps::<L>::new(blank);
    sweeps(alloc, sweep, wanted, &mut steps)
}

/// Whether the sweep of a number has these pieces.
fn is_so(alloc: Global, number: u32, wanted: &[Piece]) -> bool {
    match draw_sweep(alloc, number) {
        Ok(sweep) => sweeps_counted::<Brand>(alloc, &sweep, wanted, Blank::new(1)),
        Err(_) => false,
    }
}

/// Numbers of sweeps, and their pieces.
const CASES: [(u32, &[Piece]); 24] = [
    (0, &[(0, 1, Some(-7)), (2, 2, Some(-11))]),
    (
        7,
        &[
            (0, 0, None),
            (1, 1, Some(10)),
            (2, 2, Some(5)),
            (3, 3, Some(1)),
            (4, 4, Some(-2)),
            (5, 12, Some(-3)),
        ],
    ),
    (
        14,
        &[
            (0, 4, None),
            (5, 6, Some(-4)),
            (7, 7, Some(-6)),
            (8, 8, Some(-7)),
            (9, 16, Some(-8)),
        ],
    ),
    (15, &[(0, 4, None)]),
    (17, &[(0, 0, None), (1, 6, Some(-6))]),
    (
        18,
        &[
            (0, 3, None),
            (4, 5, Some(8)),
            (6, 7, Some(6)),
            (8, 8, Some(4)),
        ],
    ),
    (19, &[(0, 1, None), (2, 4, Some(-4))]),
    (
        23,
        &[
            (0, 0, None),
            (1, 2, Some(-2)),
            (3, 4, Some(-4)),
            (5, 10, Some(-6)),
        ],
    ),
    (
        28,
        &[
            (0, 1, None),
            (2, 2, Some(-2)),
            (3, 5, Some(-3)),
            (6, 6, Some(-4)),
        ],
    ),
    (29, &[(0, 5, None)]),
    (
        30,
        &[
            (0, 0, None),
            (1, 1, Some(1)),
            (2, 2, Some(-1)),
            (3, 3, Some(-3)),
            (4, 4, Some(-5)),
            (5, 11, Some(-7)),
        ],
    ),
    (
        34,
        &[
            (0, 0, Some(-5)),
            (1, 1, Some(-7)),
            (2, 3, Some(-9)),
            (4, 4, Some(-11)),
            (5, 6, Some(-13)),
            (7, 7, Some(-15)),
            (8, 11, Some(-17)),
        ],
    ),
    (35, &[(0, 7, Some(-2))]),
    (45, &[(0, 10, None), (11, 11, Some(6))]),
    (
        48,
        &[
            (0, 0, Some(-10)),
            (1, 1, Some(-12)),
            (2, 2, Some(-14)),
            (3, 3, Some(-16)),
            (4, 11, Some(-18)),
        ],
    ),
    (49, &[(0, 1, Some(-44))]),
    (
        52,
        &[
            (0, 7, None),
            (8, 8, Some(12)),
            (9, 9, Some(8)),
            (10, 10, Some(4)),
            (11, 11, Some(1)),
            (12, 12, Some(-2)),
            (13, 15, Some(-5)),
            (16, 16, Some(-8)),
        ],
    ),
    (
        59,
        &[
            (0, 0, None),
            (1, 1, Some(-3)),
            (2, 2, Some(-9)),
            (3, 3, Some(-15)),
            (4, 17, Some(-18)),
        ],
    ),
    (60, &[(0, 11, None)]),
    (63, &[(0, 6, None), (7, 17, Some(0))]),
    (
        69,
        &[
            (0, 1, None),
            (2, 3, Some(-8)),
            (4, 5, Some(-11)),
            (6, 7, Some(-14)),
            (8, 15, Some(-17)),
        ],
    ),
    (70, &[(0, 0, None), (1, 9, Some(0))]),
    (76, &[(0, 3, None), (4, 6, Some(-4)), (7, 10, Some(-8))]),
    (
        77,
        &[
            (0, 0, Some(-2)),
            (1, 1, Some(-5)),
            (2, 2, Some(-6)),
            (3, 3, Some(-8)),
            (4, 17, Some(-9)),
        ],
    ),
];

#[test]
fn values_of_row_sweeps(rt: HostRuntime) {
    for (number, pieces) in &CASES {
        assert!(rt; is_so(rt.alloc(), *number, *pieces));
    }
}
