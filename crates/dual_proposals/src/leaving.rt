//! The choice of the basic variable that leaves: the one farthest outside its sides, in proportion to the numbers of its row.
use crate::quotients::is_roughly_greater;
use crate::ranges::Range;
use crate::tableaus::{BasicRow, DualTableau};

/// A basic variable outside its sides.
#[derive(Clone, Copy)]
pub struct Leaving {
    /// The number of its row in the tableau.
    pub index: usize,
    pub variable: usize,
    /// Whether it is below its low side, so that it has to rise.
    pub rises: bool,
    /// How far it is outside, times the denominator of its row.
    pub distance: u128,
    /// The sum of the absolute values of the numbers of its row, and the denominator.
    pub weight: u128,
}

/// Whether some basic variable leaves. A number may be too large to say so.
#[derive(Clone, Copy)]
pub enum Choice {
    Leaves(Leaving),
    AllWithin,
    TooWide,
}

/// A denominator up to which its product with any side fits.
const SMALL_DENOMINATOR: i128 = 1 << 62;

/// A side times a denominator, where it fits.
#[inline]
fn scaled(side: i64, denominator: i128) -> Option<i128> {
    if denominator <= SMALL_DENOMINATOR {
        return Some(i128::from(side).wrapping_mul(denominator));
    }
    i128::from(side).checked_mul(denominator)
}

/// The two sides of a range.
#[derive(Clone, Copy)]
enum Side {
    Low,
    High,
}

/// How far a value is below a low side or above a high one, negative where it is within; none where a number does not fit.
#[inline]
fn outside(end: Side, side: Option<i64>, denominator: i128, value: i128) -> Option<i128> {
    let Some(side) = side else {
        return Some(-1);
    };
    let side = scaled(side, denominator)?;
    match end {
        Side::Low => side.checked_sub(value),
        Side::High => value.checked_sub(side),
    }
}

/// How a basic variable with a range stands to its sides.
#[inline]
fn standing(index: usize, basic: &BasicRow, range: Range) -> Choice {
    let row = &basic.row;
    let (Some(below), Some(above)) = (
        outside(Side::Low, range.low, row.denominator, row.value),
        outside(Side::High, range.high, row.denominator, row.value),
    ) else {
        return Choice::TooWide;
    };
    let distance = below.max(above);
    if distance <= 0 {
        return Choice::AllWithin;
    }
    Choice::Leaves(Leaving {
        index,
        variable: basic.variable,
        rises: below > 0,
        distance: distance.unsigned_abs(),
        weight: row
            .absolute_sum
            .wrapping_add(row.denominator.unsigned_abs()),
    })
}

/// Whether one variable leaves rather than another.
#[inline]
fn is_farther(one: &Leaving, other: &Leaving, by_least_number: bool) -> bool {
    if by_least_number {
        return one.variable < other.variable;
    }
    is_roughly_greater(one.distance, one.weight, other.distance, other.weight)
}

impl DualTableau {
    /// The basic variable that leaves: the farthest outside its sides, or the one with the least number.
    pub(crate) fn leaving(&self, by_least_number: bool) -> Choice {
        let mut found = Choice::AllWithin;
        for (index, basic) in self.basic.iter().enumerate() {
            let range = match self.ranges.as_slice().get(basic.variable) {
                Some(range) => *range,
                None => return Choice::TooWide,
            };
            match (standing(index, basic, range), &found) {
                (Choice::TooWide, _) => return Choice::TooWide,
                (Choice::AllWithin, _) => {}
                (Choice::Leaves(leaving), Choice::Leaves(other)) => {
                    if is_farther(&leaving, other, by_least_number) {
                        found = Choice::Leaves(leaving);
                    }
                }
                (Choice::Leaves(leaving), _) => found = Choice::Leaves(leaving),
            }
        }
        found
    }
}
