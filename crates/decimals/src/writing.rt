//! Decimal texts of numbers of units.

ghost use Rattle.std.specs.Prelude.{◌≡◌, ◌++◌, ◌^◌, ◌<◌, decimal, IfOk, OnOk, string_bytes};
ghost use Rattle.decimals.specs.Decimals.{fraction_text, sign_text};
ghost use Rattle.mps_defs.specs.Numbers.{decimal_text as decimal_text_of, places as places_of};

use crate::scales::quotient_and_remainder;
use ip_defs::Memory;
use std::alloc::Global;

/// Adds the digits of a remainder in that many places, without the zeros at their end. Out of memory, the text may have some of them.
fn push_places(text: &mut String, remainder: u128, places: u8) -> Result<(), Memory>
    requires { remainder < 10 ^ places }
    ensures { OnOk result (string_bytes text.new ≡ string_bytes text.old ++ places_of places remainder) }
{
    let mut remaining = remainder;
    let mut left = places;
    while remaining != 0 {
        left -= 1;
        let (digit, below) = quotient_and_remainder(remaining, u32::from(left));
        text.push(char::from(b'0' + digit as u8))?;
        remaining = below;
    }
    Ok(())
}

/// The sign and the whole part.
fn whole_text(alloc: Global, units: i128, whole: u128) -> Result<String, Memory>
    ensures { IfOk result (λ text. string_bytes text ≡ sign_text units ++ decimal whole) }
{
    if units < 0 {
        return Ok(format!(in alloc; "-{whole}")?);
    }
    Ok(format!(in alloc; "{whole}")?)
}

/// Adds the point and the digits of a remainder that is not 0. Out of memory, the text may have some of them.
fn push_fraction(text: &mut String, remainder: u128, places: u8) -> Result<(), Memory>
    requires { remainder < 10 ^ places }
    ensures { OnOk result (string_bytes text.new ≡ string_bytes text.old ++ fraction_text places remainder) }
{
    if remainder == 0 {
        return Ok(());
    }
    text.push('.')?;
    push_places(text, remainder, places)
}

/// The decimal text of `units / 10^decimals`: a minus where it is negative, the whole part, and where it is not whole a point and the
/// digits after it, without zeros at the end. The only error is being out of memory.
pub fn decimal_text(alloc: Global, units: i128, decimals: u8) -> Result<String, Memory>
    ensures { IfOk result (λ text. string_bytes text ≡ decimal_text_of units decimals) }
{
    let (whole, remainder) = quotient_and_remainder(units.unsigned_abs(), u32::from(decimals));
    let mut text = whole_text(alloc, units, whole)?;
    push_fraction(&mut text, remainder, decimals)?;
    Ok(text)
}
