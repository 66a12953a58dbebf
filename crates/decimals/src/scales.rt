//! Numbers in units of a power of ten.

ghost use Rattle.std.specs.Prelude.{◌≡◌, ◌^◌, ◌<◌, ◌≤◌, ◌+◌, ◌/◌, ◌%◌, ◌*ℤ◌, pos};
ghost use Rattle.std.specs.Int.{w128};
ghost use Rattle.std.specs.Int.RustNames.{FitsSigned};
ghost use Rattle.mps_defs.specs.Numbers.{exact_units, signed as signed_of, whole_quotient as whole_quotient_of};
ghost use Rattle.mps_defs.specs.TextModels.{units as units_of};
ghost use Rattle.decimals.specs.Decimals.{IsBelowLarge};

use crate::numbers::signed;
use mps_defs::Number;

/// A product with a power of ten.
fn times_tens(units: i128, power: u32) -> i128
    requires power { power ≤ 9 }
    requires fits { FitsSigned w128 (units *ℤ pos (10 ^ power)) }
    ensures { result ≡ units *ℤ pos (10 ^ power) }
{
    units * i128::from(10_u64.pow(power))
}

/// The quotient and the remainder by a power of ten, which may exceed 128 bits.
pub fn quotient_and_remainder(dividend: u128, power: u32) -> (u128, u128)
    ensures quotient { result.0 ≡ dividend / 10 ^ power }
    ensures remainder { result.1 ≡ dividend % 10 ^ power }
{
    match 10_u128.checked_pow(power) {
        Some(tens) => (dividend / tens, dividend % tens),
        None => (0, dividend),
    }
}

/// The quotient by a power of ten, where it is whole.
fn whole_quotient(units: i128, power: u32) -> Option<i128>
    requires { 0 < power }
    ensures { result ≡ whole_quotient_of units (10 ^ power) }
{
    let (quotient, remainder) = quotient_and_remainder(units.unsigned_abs(), power);
    if remainder != 0 {
        return None;
    }
    Some(signed(units < 0, quotient))
}

/// The value of a number times `10^decimals`. `None` means that the product is not whole, or that the number is Large. The number need
/// not be in its fewest decimals: 10 with one decimal, scaled to 0 decimals, gives 1.
pub fn scaled(number: Number, decimals: u8) -> Option<i128>
    requires decimals { decimals ≤ 9 }
    requires below { IsBelowLarge number }
    ensures { result ≡ exact_units number decimals }
{
    match number {
        Number::Dec {
            units,
            decimals: written,
        } => {
            let wanted = u32::from(decimals);
            if written <= wanted {
                Some(times_tens(units, wanted - written))
            } else {
                whole_quotient(units, written - wanted)
            }
        }
        Number::Large { .. } => None,
    }
}

/// 10^20 of the written units, with a sign.
fn large_units(negative: bool, decimals: u8) -> i128
    requires { decimals ≤ 9 }
    ensures { result ≡ signed_of negative (10 ^ (20 + decimals)) }
{
    let absolute = 10_i128.pow(20 + u32::from(decimals));
    if negative { -absolute } else { absolute }
}

/// A number in units of `10^-decimals`, where it has at most that many decimals. A Large one counts as 10^20 of the written units with
/// its sign, which exceeds every limit of a model.
pub fn units(number: Number, decimals: u8) -> i128
    requires decimals { decimals ≤ 9 }
    requires below { IsBelowLarge number }
    ensures { result ≡ units_of decimals number }
{
    match number {
        Number::Dec {
            units,
            decimals: written,
        } => times_tens(units, u32::from(decimals).saturating_sub(written)),
        Number::Large { negative } => large_units(negative, decimals),
    }
}
