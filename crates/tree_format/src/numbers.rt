//! Numbers as bytes: what one more byte says of a number, and writing a number.
ghost use Rattle.std.specs.Prelude.{◌≡◌, ◌++◌, ◌^◌, ◌<◌, ◌≤◌, OnOk, OnErr};
ghost use Rattle.tree_format.specs.Numbers.{next_digit as next_digit_of, last_digit as last_digit_of};
ghost use Rattle.tree_format.specs.Internal.Remaining.{IsFinalDigit};
ghost use Rattle.tree_format.specs.Spellings.{longest, number};

use crate::TreeError;
use ip_defs::Memory;

/// The most bytes of a number of a tree file.
pub(crate) const LONGEST: u32 = 6;

/// What a byte of a number says.
#[derive(Clone, Copy)]
pub(crate) enum Digit {
    /// The number goes on; its bytes so far have this value.
    GoesOn(u64),
    /// The number ends, and is this one.
    Ends(u64),
    /// The number has a fault.
    Fails(TreeError),
}

/// What the low seven bits of a byte count for, after some bytes of its number.
fn weight(read: u32) -> u64
    requires { read < 6 }
    ensures value { result ≡ 128 ^ read }
    ensures small { result ≤ 2 ^ 35 }
{
    128u64.pow(read)
}

/// What a byte below 128 says of a number, which it ends.
fn last_digit(greatest: u64, read: u32, low: u64, start: u64, byte: u8) -> Digit
    requires read { read < 6 }
    requires low { low < 128 ^ read }
    requires byte { byte < 128 }
    ensures digit { result ≡ last_digit_of greatest read low start byte }
    ensures final_fault { IsFinalDigit result }
{
    if read > 0 && byte == 0 {
        return Digit::Fails(TreeError::LongNumber { place: start });
    }
    let value = low + u64::from(byte) * weight(read);
    if value > greatest {
        Digit::Fails(TreeError::Width { place: start })
    } else {
        Digit::Ends(value)
    }
}

/// What the next byte says of a number that begins at a place, where some of its bytes are read and have a value.
pub(crate) fn next_digit(greatest: u64, read: u32, low: u64, start: u64, byte: u8) -> Digit
    requires read { read < 6 }
    requires low { low < 128 ^ read }
    ensures { result ≡ next_digit_of longest greatest read low start byte }
{
    if byte < 128 {
        last_digit(greatest, read, low, start, byte)
    } else if read + 1 < LONGEST {
        Digit::GoesOn(low + u64::from(byte - 128) * weight(read))
    } else {
        Digit::Fails(TreeError::Width { place: start })
    }
}

/// Writes a number at the end.
pub(crate) fn push_number(out: &mut Vec<u8>, value: u64) -> Result<(), Memory>
    requires { value < 2 ^ 42 }
    ensures { OnOk result (out.new.items ≡ out.old.items ++ number value) }
{
    let mut left = value;
    while left >= 128 {
        out.push((128 + left % 128) as u8)?;
        left = left / 128;
    }
    out.push(left as u8)?;
    Ok(())
}
