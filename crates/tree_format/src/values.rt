//! Signed numbers as numbers: 0, -1, 1, -2 and so on as 0, 1, 2, 3 and so on.
ghost use Rattle.std.specs.Prelude.{◌≡◌, ◌^◌, ◌≤◌};
ghost use Rattle.std.specs.Int.RustNames.{unsigned_abs};
ghost use Rattle.tree_format.specs.Numbers.{signed as signed_of, unsigned as unsigned_of};

/// The signed number that a number stands for.
pub(crate) fn signed(value: u64) -> i64
    requires { value ≤ 2 ^ 37 }
    ensures { result ≡ signed_of value }
{
    let half = (value / 2) as i64;
    if value % 2 == 0 { half } else { -half - 1 }
}

/// The number that stands for a signed number.
pub(crate) fn unsigned(value: i64) -> u64
    requires { unsigned_abs value ≤ 2 ^ 36 }
    ensures { result ≡ unsigned_of value }
{
    if value >= 0 {
        2 * value.unsigned_abs()
    } else {
        2 * value.unsigned_abs() - 1
    }
}
