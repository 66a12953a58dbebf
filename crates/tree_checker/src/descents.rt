//! The box of the next node, cut by the splits above it.
ghost use Rattle.std.specs.Prelude.{◌≡◌, ◌<◌, ◌≤◌, ◌^◌, length, true};
ghost use Rattle.std.specs.Int.RustNames.{unsigned_abs};
ghost use Rattle.ip_defs.specs.Boxes.{below, above};
ghost use Rattle.tree_checker.specs.Internal.Descents.{IsDescent, can_enter, entered, halved, settled};

use crate::cuts::{Cut, Cuts};
use ip_defs::Area;
use ip_model::{cut_above, cut_below};

/// The greatest absolute value of the number of a split.
const LARGEST_CUT: u64 = 1 << 24;

/// The most splits above a node.
const DEEPEST: usize = 800;

/// Cuts a box to the lower half of a column; where that is empty, to an empty side within the limits.
fn lower(area: &mut Area, j: usize, at: i64)
    requires { j < length area.old }
    ensures { area.new ≡ halved (below area.old j at) j }
{
    if !cut_below(area, j, at) {
        area.set(j, (1, 0));
    }
}

/// Cuts a box to the upper half of a column; where that is empty, to an empty side within the limits.
fn raise(area: &mut Area, j: usize, at: i64)
    requires within { j < length area.old }
    requires small { unsigned_abs at ≤ 2 ^ 24 }
    ensures { area.new ≡ halved (above area.old j at) j }
{
    if !cut_above(area, j, at) {
        area.set(j, (1, 0));
    }
}

/// The box of the next node with the splits above it.
#[derive(Drop)]
pub(crate) struct Descent {
    pub(crate) area: Area,
    pub(crate) cuts: Cuts,
}

impl Descent {
    /// Whether a split can be entered: its column is one of those of the model, and it is within the limits.
    pub(crate) fn can_enter(&self, columns: usize, col: u32, at: i64) -> bool
        ensures { result ≡ can_enter columns self.now col at }
    {
        (col as usize) < columns && at.unsigned_abs() <= LARGEST_CUT && self.cuts.len() < DEEPEST
    }

    /// Goes on to the left half of a split.
    pub(crate) fn enter(&mut self, columns: usize, col: u32, at: i64)
        requires sound { IsDescent columns self.old }
        requires within { can_enter columns self.old col at ≡ true }
        ensures entered { self.new ≡ entered self.old col at }
        ensures sound { IsDescent columns self.new }
    {
        let j = col as usize;
        let sides = self.area.as_slice()[j];
        self.cuts.push(Cut {
            col,
            at,
            sides,
            right: false,
        });
        lower(&mut self.area, j, at);
    }

    /// Goes on after a node: up to the first split whose right half is still to come, and into that.
    pub(crate) fn settle(&mut self, columns: usize)
        requires sound { IsDescent columns self.old }
        ensures settled { self.new ≡ settled self.old }
        ensures sound { IsDescent columns self.new }
    {
        while let Some(cut) = self.cuts.pop() {
            let j = cut.col as usize;
            self.area.set(j, cut.sides);
            if !cut.right {
                raise(&mut self.area, j, cut.at);
                self.cuts.push(Cut { right: true, ..cut });
                return;
            }
        }
    }
}
