//! Quotients of 128 bits, rounded up.
ghost use Rattle.std.specs.Prelude.{◌≡◌, pos, ◌<ℤ◌};
ghost use Rattle.std.specs.Int.RustNames.{int_div, unsigned_abs};
ghost use Rattle.ip_defs.specs.Certificates.{ceiling};

use ip_model::{difference, total_of};

/// A quotient by a positive number, rounded toward zero.
#[inline]
fn quotient(a: i128, b: i128) -> i128
    requires { pos 0 <ℤ b }
    ensures { result ≡ int_div a b }
{
    a / b
}

/// A quotient by a positive number, rounded up.
pub fn ceil_div(a: i128, b: i128) -> i128
    requires { pos 0 <ℤ b }
    ensures { result ≡ ceiling a (unsigned_abs b) }
{
    if a > 0 {
        total_of(quotient(difference(a, 1), b), 1)
    } else {
        quotient(a, b)
    }
}
