//! Small row sweeps, each drawn by its number: three columns, two rows, a moving side of each row and the last step.
ghost use Rattle.std.specs.Prelude.{◌<◌, ◌≤ℤ◌, ◌<ℤ◌, pos};

use ip_defs::{Column, Row};
use ip_model::{IntModel, Place};
use sample_models::{SampleError, column, model, row};
use std::alloc::Global;

/// A drawn sweep: the model, and two sides, each with the number by which it moves outwards at a step.
#[derive(Debug, Drop)]
pub struct Drawn {
    pub model: IntModel,
    pub dir: [(Place, i64); 2],
    pub last: u32,
}

/// A sequence of numbers that `tools/vectors/sweeps.py` draws too.
#[derive(Debug, Drop)]
struct Draws {
    state: u32,
}

/// The low and the high side of a row.
type Sides = (Option<i64>, Option<i64>);

impl Draws {
    /// The next number below another one.
    fn below(&mut self, most: u32) -> i64
        requires { 0 < most }
        ensures least { pos 0 ≤ℤ result }
        ensures most { result <ℤ pos most }
    {
        let next = self.state.wrapping_mul(1_103_515_245).wrapping_add(12_345) % (1 << 31);
        self.state = next;
        i64::from(next / 65_536 % most)
    }
}

/// A number from -3 to 3 but 0.
fn drawn_coefficient(draws: &mut Draws) -> i64 {
    let number = draws.below(6);
    if number < 3 { number - 3 } else { number - 2 }
}

/// A column with a cost from -4 to 4 and at most six values.
fn drawn_column(alloc: Global, draws: &mut Draws) -> Column {
    let cost = draws.below(9) - 4;
    let lo = draws.below(4) - 2;
    let hi = lo + 1 + draws.below(5);
    column(alloc, cost, lo, hi)
}

/// One side, two equal ones or two others, from -6 to 16.
fn drawn_sides(draws: &mut Draws) -> Sides {
    let a = draws.below(23) - 6;
    let b = draws.below(23) - 6;
    match draws.below(4) {
        0 => (Some(a), None),
        1 => (None, Some(b)),
        2 => (Some(a), Some(a)),
        _ => (Some(a.min(b)), Some(a.max(b))),
    }
}

/// The coefficients and the sides of a row.
fn drawn_row(draws: &mut Draws) -> ([(u32, i64); 3], Sides) {
    let a = drawn_coefficient(draws);
    let b = drawn_coefficient(draws);
    let c = drawn_coefficient(draws);
    ([(0, a), (1, b), (2, c)], drawn_sides(draws))
}

/// Whether it is the low side of a row that moves.
fn moves_low(draws: &mut Draws, sides: Sides) -> bool {
    match sides {
        (Some(_), Some(_)) => draws.below(2) == 0,
        (_, high) => high.is_none(),
    }
}

/// The side of a row that moves, and by how much at a step.
fn drawn_move(draws: &mut Draws, row: u32, sides: Sides) -> (Place, i64) {
    let is_low = moves_low(draws, sides);
    let by = draws.below(4);
    if is_low {
        (Place::Low(row), -by)
    } else {
        (Place::High(row), by)
    }
}

/// A row of these coefficients and sides, in a list that is added to.
fn add_row(
    alloc: Global,
    rows: &mut Vec<Row>,
    coefs: &[(u32, i64)],
    sides: Sides,
) -> Result<(), SampleError> {
    let added = row(alloc, coefs, sides.0, sides.1)?;
    rows.push(added)?;
    Ok(())
}

/// The sweep of a number.
pub fn draw_sweep(alloc: Global, number: u32) -> Result<Drawn, SampleError> {
    let mut draws = Draws { state: number };
    let mut columns = Vec::new(alloc);
    for _ in 0..3 {
        columns.push(drawn_column(alloc, &mut draws))?;
    }
    let (coefs, sides) = drawn_row(&mut draws);
    let (other_coefs, other_sides) = drawn_row(&mut draws);
    let dir = [
        drawn_move(&mut draws, 0, sides),
        drawn_move(&mut draws, 1, other_sides),
    ];
    let last = draws.below(18) as u32;
    let mut rows = Vec::new(alloc);
    add_row(alloc, &mut rows, &coefs, sides)?;
    add_row(alloc, &mut rows, &other_coefs, other_sides)?;
    let model = model(alloc, columns, rows)?;
    Ok(Drawn { model, dir, last })
}
