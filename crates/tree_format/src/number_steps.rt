//! Reading a byte or a number that stands at a place of bytes.
ghost use Rattle.std.specs.Prelude.{◌≡◌, ◌^◌, ◌*◌, ◌<◌, ◌≤◌, ◌∷◌, [], List, ℕ, length, drop, IfOk, IfErr};
ghost use Rattle.std.specs.Int.RustNames.{unsigned_abs};
ghost use Rattle.tree_format.specs.Spellings.{number, signed_number};
ghost use Rattle.tree_format.specs.Internal.Steps.{Stands, IsNumberFault};

use crate::TreeError;
use crate::numbers::{Digit, next_digit};
use crate::values::signed;

/// The byte at a place, and the place after it. With no byte left it is a cut.
pub(crate) fn read_byte(bytes: &[u8], at: &mut usize) -> Result<u8, TreeError>
    requires within { at.old ≤ length bytes.now }
    ensures on { IfOk result (λ b. Stands bytes.now at.old at.new (b ∷ [])) }
    ensures cut { IfErr result (λ e. (e ≡ TreeError.Cut at.old) × (drop at.old bytes.now ≡ [])) }
{
    if *at < bytes.len() {
        let byte = bytes[*at];
        *at += 1;
        Ok(byte)
    } else {
        Err(TreeError::Cut { place: *at as u64 })
    }
}

/// The number at a place, at most a greatest one, and the place after it; or its fault.
pub(crate) fn read_number(bytes: &[u8], at: &mut usize, greatest: u64) -> Result<u64, TreeError>
    requires within { at.old ≤ length bytes.now }
    requires greatest { greatest < 2 ^ 42 }
    ensures on { IfOk result (λ v. (v ≤ greatest) × Stands bytes.now at.old at.new (number v)) }
    ensures fault { IfErr result (λ e. IsNumberFault greatest at.old (drop at.old bytes.now) e) }
{
    let start = *at as u64;
    let mut read = 0;
    let mut low = 0;
    while *at < bytes.len() {
        match next_digit(greatest, read, low, start, bytes[*at]) {
            Digit::GoesOn(value) => {
                low = value;
                read += 1;
                *at += 1;
            }
            Digit::Ends(value) => {
                *at += 1;
                return Ok(value);
            }
            Digit::Fails(fault) => return Err(fault),
        }
    }
    Err(TreeError::Cut { place: *at as u64 })
}

/// The signed number at a place, at most a greatest one in absolute value, and the place after it; or its fault.
pub(crate) fn read_signed(bytes: &[u8], at: &mut usize, greatest: u64) -> Result<i64, TreeError>
    requires within { at.old ≤ length bytes.now }
    requires greatest { greatest ≤ 2 ^ 36 }
    ensures on { IfOk result (λ z. (unsigned_abs z ≤ greatest) × Stands bytes.now at.old at.new (signed_number z)) }
    ensures fault { IfErr result (λ e. IsNumberFault (2 * greatest) at.old (drop at.old bytes.now) e) }
{
    match read_number(bytes, at, 2 * greatest) {
        Ok(value) => Ok(signed(value)),
        Err(fault) => Err(fault),
    }
}
