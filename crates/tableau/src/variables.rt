//! A variable of a node: its sides, and the positions that it can have.
ghost use Rattle.std.specs.Prelude.{◌≡◌, ◌↔◌, IsTrue, option_map};
ghost use Rattle.frac128.specs.Values.{value_of};
ghost use Rattle.tableau.specs.Numbers.{is_fixed as is_fixed_variable, nonbasic_value, range as range_of, side_at, side_or_zero};
ghost use Rattle.tableau.specs.Tables.{CanRest};

use crate::Rest;
use frac128::{Frac, frac};

/// A variable of a node: the sides that it has, and its cost, which is 0 for a slack.
#[derive(Clone, Copy, Debug, PartialEq, Eq)]
pub struct Variable {
    pub low: Option<i64>,
    pub high: Option<i64>,
    pub cost: i64,
}

/// A side, 0 where it is absent.
#[inline]
pub fn present_side(side: Option<i64>) -> i64
    ensures { result ≡ side_or_zero side }
{
    match side {
        Some(side) => side,
        None => 0,
    }
}

impl Variable {
    /// The side that a position names, where the variable has it.
    #[inline]
    pub fn side(self, rest: Rest) -> Option<i64>
        ensures { result ≡ side_at self rest }
    {
        match rest {
            Rest::Low => self.low,
            Rest::High => self.high,
            Rest::Basic | Rest::Zero => None,
        }
    }

    /// The value of the variable at a nonbasic position, none for a basic one.
    #[inline]
    pub fn nonbasic_value(self, rest: Rest) -> Option<i64>
        ensures { result ≡ nonbasic_value self rest }
    {
        match rest {
            Rest::Basic => None,
            Rest::Low => Some(present_side(self.low)),
            Rest::High => Some(present_side(self.high)),
            Rest::Zero => Some(0),
        }
    }

    /// Whether the variable has two equal sides.
    #[inline]
    pub fn is_fixed(self) -> bool
        ensures { result ≡ is_fixed_variable self }
    {
        match (self.low, self.high) {
            (Some(low), Some(high)) => low == high,
            _ => false,
        }
    }

    /// How far the variable can move between its sides, where it has both.
    pub fn range(self) -> Option<Frac>
        ensures { option_map value_of result ≡ range_of self }
    {
        match (self.low, self.high) {
            (Some(low), Some(high)) => Some(frac(i128::from(high) - i128::from(low), 1)),
            _ => None,
        }
    }

    /// Whether the variable can have this nonbasic position: at a side that it has, or at 0 where it has no side.
    #[inline]
    pub(crate) fn can_rest(self, rest: Rest) -> bool
        ensures { IsTrue result ↔ CanRest self rest }
    {
        match rest {
            Rest::Basic => false,
            Rest::Low => self.low.is_some(),
            Rest::High => self.high.is_some(),
            Rest::Zero => self.low.is_none() && self.high.is_none(),
        }
    }
}
