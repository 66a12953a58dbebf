//! Whether a certificate is within its limits.
ghost use Rattle.std.specs.Prelude.{◌↔◌, ◌^◌, IsTrue};
ghost use Rattle.ip_defs.specs.Limits.{AreOrdered, AreSmall, IsCert};
ghost use Rattle.leaf_cert.specs.Internal.Multipliers.{IsNext};

use ip_defs::Cert;

/// The greatest absolute value of a certificate's numbers.
const LARGEST: u64 = 1 << 36;

/// Whether a multiplier may come next in the list, where `least` is the first row that is free.
fn is_next(least: u32, row: u32, multiplier: i64, rows: u32) -> bool
    ensures { IsTrue result ↔ IsNext least row multiplier rows }
{
    least <= row && row < rows && multiplier != 0 && multiplier.unsigned_abs() <= LARGEST
}

/// Whether the row numbers increase and are below `rows`, and each multiplier is not 0 and within the limit.
fn multipliers_ok(y: &[(u32, i64)], rows: u32) -> bool
    ensures { IsTrue result ↔ (AreOrdered rows y.now × AreSmall (2 ^ 36) y.now) }
{
    let mut least = 0;
    for (row, multiplier) in y {
        if !is_next(least, *row, *multiplier, rows) {
            return false;
        }
        least = *row + 1;
    }
    true
}

/// Whether a certificate is within its limits for a number of rows: `q` lies between 0 and 2^36, the row numbers increase and are below
/// `rows`, and each multiplier is not 0 and at most 2^36 in absolute value.
pub fn cert_ok(cert: &Cert, rows: u32) -> bool
    ensures { IsTrue result ↔ IsCert rows cert.now }
{
    cert.q >= 0 && cert.q.unsigned_abs() <= LARGEST && multipliers_ok(cert.y.as_slice(), rows)
}
