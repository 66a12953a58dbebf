//! The box of a model, and its halves at a cut of a column.
ghost use Rattle.std.specs.Prelude.{◌≡◌, ◌<◌, ◌≤◌, ◌^◌, ◌+ℤ◌, ◌≤ℤ◌, ◌↔◌, IfOk, IsTrue, OnOk, length, map, pos};
ghost use Rattle.std.specs.Int.{int_max};
ghost use Rattle.std.specs.Int.RustNames.{unsigned_abs};
ghost use Rattle.std.specs.List.{list_any};
ghost use Rattle.ip_defs.specs.Boxes.{above, below};
ghost use Rattle.ip_defs.specs.Certificates.{is_empty_side};
ghost use Rattle.ip_defs.specs.Limits.{IsWithinLimits};
ghost use Rattle.ip_defs.specs.Program.{box_of as box_of_parts, high_at, low_at};

use crate::IntModel;
use ip_defs::{Area, Column, Memory};
use std::alloc::{AllocError, Global};

/// The two bounds of each column.
fn sides_of(alloc: Global, columns: &[Column]) -> Result<Vec<(i64, i64)>, AllocError>
    ensures { IfOk result (λ v. v.items ≡ map (λ c. (c.lo, c.hi)) columns.now) }
{
    columns
        .iter()
        .map(|column| (column.lo, column.hi))
        .collect(alloc)
}

/// The box of a model: the two bounds of each column. The only error is out of memory.
pub fn box_of(alloc: Global, model: &IntModel) -> Result<Area, Memory>
    ensures sides { IfOk result (λ b. b ≡ box_of_parts model.now) }
    ensures limits { OnOk result (IsWithinLimits model.now) }
{
    Ok(Area::from_vec(sides_of(alloc, model.parts().columns.as_slice())?))
}

/// Sets a box to the bounds of the columns.
fn set_sides(columns: &[Column], area: &mut Area)
    requires { length area.old ≡ length columns.now }
    ensures { area.new ≡ map (λ c. (c.lo, c.hi)) columns.now }
{
    for (j, column) in columns.iter().enumerate() {
        area.set(j, (column.lo, column.hi));
    }
}

/// Sets a box with one pair for each column to the box of a model. Allocates nothing.
pub fn set_box(model: &IntModel, area: &mut Area)
    requires { length area.old ≡ length model.now.columns }
    ensures sides { area.new ≡ box_of_parts model.now }
    ensures limits { IsWithinLimits model.now }
{
    set_sides(model.parts().columns.as_slice(), area);
}

/// Whether a column of a box is empty: it has no integer between its bounds.
pub fn has_empty_column(area: &[(i64, i64)]) -> bool
    ensures { result ≡ list_any is_empty_side area.now }
{
    area.iter().any(|side| side.1 < side.0)
}

/// Lowers the upper bound of column `j` to a cut. The answer says whether the column still has an integer between its bounds.
#[inline]
pub fn cut_below(area: &mut Area, j: usize, cut: i64) -> bool
    requires { j < length area.old }
    ensures cut { area.new ≡ below area.old j cut }
    ensures open { IsTrue result ↔ low_at area.new j ≤ℤ high_at area.new j }
{
    let side = area.as_slice()[j];
    let high = side.1.min(cut);
    area.set(j, (side.0, high));
    side.0 <= high
}

/// The greater of a lower bound and the integer after a cut.
#[inline]
fn raised(low: i64, cut: i64) -> i64
    requires { unsigned_abs cut ≤ 2 ^ 24 }
    ensures { result ≡ int_max low (cut +ℤ pos 1) }
{
    low.max(cut + 1)
}

/// Raises the lower bound of column `j` to the integer after a cut. The answer says whether the column still has an integer between
/// its bounds.
#[inline]
pub fn cut_above(area: &mut Area, j: usize, cut: i64) -> bool
    requires within { j < length area.old }
    requires small { unsigned_abs cut ≤ 2 ^ 24 }
    ensures cut { area.new ≡ above area.old j cut }
    ensures open { IsTrue result ↔ low_at area.new j ≤ℤ high_at area.new j }
{
    let side = area.as_slice()[j];
    let low = raised(side.0, cut);
    area.set(j, (low, side.1));
    low <= side.1
}
