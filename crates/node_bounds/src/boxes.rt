//! The boxes of a search: their widest column, the middle of two numbers, and their lowest point.
ghost use Rattle.std.specs.Prelude.{◌≡◌, ◌≤◌, ◌^◌, ◌-ℤ◌, ◌<ℤ◌, IfNone, IfOk, IfSome, length};
ghost use Rattle.std.specs.Int.RustNames.{unsigned_abs};
ghost use Rattle.ip_defs.specs.Limits.{IsArea};
ghost use Rattle.ip_defs.specs.Program.{high_at, low_at};
ghost use Rattle.node_bounds.specs.Areas.{IsSingle, lowest};
ghost use Rattle.node_bounds.specs.Splits.{IsWidest, middle as middle_of};

use ip_defs::{Area, Point};
use std::alloc::{AllocError, Global};

/// How many numbers a column has above its lower side.
fn width_of(low: i64, high: i64) -> i64
    requires low { unsigned_abs low ≤ 2 ^ 24 }
    requires high { unsigned_abs high ≤ 2 ^ 24 }
    ensures { result ≡ high -ℤ low }
{
    high - low
}

/// The first of the widest columns of a box, where one has more than one number.
pub fn widest_column(area: &[(i64, i64)]) -> Option<u32>
    requires area { IsArea (length area.now) area.now }
    requires size { length area.now ≤ 4096 }
    ensures widest { IfSome result (IsWidest area.now) }
    ensures wide { IfSome result (λ j. low_at area.now j <ℤ high_at area.now j) }
    ensures none { IfNone result (IsSingle area.now) }
{
    let mut widest = 0;
    let mut most: i64 = 0;
    for (j, side) in area.iter().enumerate() {
        let width = width_of(side.0, side.1);
        if width > most {
            most = width;
            widest = j as u32;
        }
    }
    if most > 0 { Some(widest) } else { None }
}

/// The middle of two numbers, rounded down.
pub fn middle(low: i64, high: i64) -> i64
    requires low_small { unsigned_abs low ≤ 2 ^ 24 }
    requires high_small { unsigned_abs high ≤ 2 ^ 24 }
    ensures { result ≡ middle_of low high }
{
    (low + high).div_euclid(2)
}

/// The lower sides of a box.
fn lower_sides(alloc: Global, area: &[(i64, i64)]) -> Result<Vec<i64>, AllocError>
    ensures { IfOk result (λ v. v.items ≡ lowest area.now) }
{
    area.iter().map(|side| side.0).collect(alloc)
}

/// The point at the lower sides of a box: its one point, where it has one.
pub fn lowest_point(alloc: Global, area: &Area) -> Result<Point, AllocError>
    ensures { IfOk result (λ p. p ≡ lowest area.now) }
{
    Ok(Point::from_vec(lower_sides(alloc, area.as_slice())?))
}
