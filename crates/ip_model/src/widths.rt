//! The width of a model's box.
ghost use Rattle.std.specs.Prelude.{◌≡◌, ◌^◌, ◌≤◌, ◌↔◌, IsNone, IfSome, IsTrue};
ghost use Rattle.std.specs.Int.Signed.{lt_z};
ghost use Rattle.ip_defs.specs.Limits.{IsColumn};
ghost use Rattle.ip_model.specs.Sizes.{width_of, width_sum as width_sum_of};

use crate::models::IntModel;
use ip_defs::Column;

/// The upper bound of a column less its lower bound, none where the upper bound is below.
fn width(column: &Column) -> Option<u64>
    requires { IsColumn column.now }
    ensures none { IsNone result ↔ IsTrue (lt_z column.now.hi column.now.lo) }
    ensures some { IfSome result (λ w. w ≡ width_of (column.now.lo, column.now.hi)) }
    ensures small { IfSome result (λ w. w ≤ 2 ^ 25) }
{
    if column.hi < column.lo {
        None
    } else {
        Some(column.hi.abs_diff(column.lo))
    }
}

/// The sum of `hi - lo` over the columns, and 0 where some column has `hi < lo`. At most 2^37.
pub fn width_sum(model: &IntModel) -> u64
    ensures { result ≡ width_sum_of model.now }
{
    let mut total = 0;
    for column in model.parts().columns.as_slice() {
        match width(column) {
            Some(width) => total += width,
            None => return 0,
        }
    }
    total
}
