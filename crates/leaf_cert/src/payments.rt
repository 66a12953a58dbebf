//! The payments of a certificate: multiplier times side, for each row.
ghost use Rattle.std.specs.Prelude.{◌≡◌, ◌^◌, ◌<◌, ◌≤◌, length, pos, ◌*ℤ◌, IfSome};
ghost use Rattle.std.specs.Int.RustNames.{unsigned_abs};
ghost use Rattle.ip_defs.specs.Certificates.{side_for, payment, pay};
ghost use Rattle.ip_defs.specs.Limits.{AreOrdered, AreSmall, IsWithinLimits};

use ip_defs::{Parts, Row};
use ip_model::{product, total_of};

/// The side of a row that a multiplier is paid for, where the row has it: the low side for a positive multiplier, the high side for a
/// negative one, and 0 for 0.
pub fn side_of(multiplier: i64, row: &Row) -> Option<i64>
    ensures { result ≡ side_for multiplier row.now }
{
    if multiplier > 0 {
        row.low
    } else if multiplier < 0 {
        row.high
    } else {
        Some(0)
    }
}

/// The payment of one multiplier, none where its row does not have the side.
fn payment_of(parts: &Parts, row: u32, multiplier: i64) -> Option<i128>
    requires limits { IsWithinLimits parts.now }
    requires within { row < length parts.now.rows }
    requires small { unsigned_abs multiplier ≤ 2 ^ 36 }
    ensures value { result ≡ payment parts.now.rows (row, multiplier) }
    ensures small { IfSome result (λ v. unsigned_abs v ≤ 2 ^ 98) }
{
    let rows = parts.rows.as_slice();
    match side_of(multiplier, &rows[row as usize]) {
        Some(side) => Some(product(i128::from(multiplier), i128::from(side))),
        None => None,
    }
}

/// The sum of all payments, none where one of them is none. With at most 2^10 of them its absolute value is at most 2^108.
pub fn paid(parts: &Parts, y: &[(u32, i64)]) -> Option<i128>
    requires limits { IsWithinLimits parts.now }
    requires ordered { AreOrdered (length parts.now.rows) y.now }
    requires multipliers { AreSmall (2 ^ 36) y.now }
    ensures paid { result ≡ pay parts.now.rows y.now }
    ensures small { IfSome result (λ paid. unsigned_abs paid ≤ 2 ^ 108) }
{
    let mut total: i128 = 0;
    for (row, multiplier) in y {
        match payment_of(parts, *row, *multiplier) {
            Some(one) => total = total_of(total, one),
            None => return None,
        }
    }
    Some(total)
}
