//! Numbers are read: a sign, and then a numeral or a word for infinity.

ghost use Rattle.std.specs.Prelude.{◌≡◌, ◌+◌, ◌*◌, ◌^◌, ◌<◌, ◌≤◌, true, length, nat_le, ◌++◌, ◌-ℤ◌, IfSome};
ghost use Rattle.std.specs.Int.{w128};
ghost use Rattle.std.specs.Int.RustNames.{FitsSigned, unsigned_abs};
ghost use Rattle.decimals.specs.Decimals.{IsBelowLarge};
ghost use Rattle.mps_defs.specs.Numbers.{number_of, number_from as number_from_of, over_tens, power_of as power_of_of, digits_value};
ghost use Rattle.mps_defs.specs.Numbers.{is_numeral as is_numeral_of, fraction_of, signed as signed_of, whole_part as whole_part_of};
ghost use Rattle.mps_defs.specs.Numbers.{fraction_part as fraction_part_of, exponent_part as exponent_part_of, is_minus as is_minus_of};
ghost use Rattle.mps_defs.specs.Numbers.{without_sign as without_sign_of};

use crate::numerals::{
    exponent_part, fraction_part, is_infinity, is_minus, is_numeral, value_from, whole_part,
    without_sign,
};
use mps_defs::Number;

/// The most characters of a number.
const MOST_CHARACTERS: usize = 32;

/// The least absolute value that is not kept exactly.
const LARGE: u128 = 100_000_000_000_000_000_000;

/// An absolute value with its sign.
pub fn signed(negative: bool, absolute: u128) -> i128
    requires { absolute < 2 ^ 127 }
    ensures value { result ≡ signed_of negative absolute }
    ensures absolute { unsigned_abs result ≡ absolute }
{
    if negative {
        -(absolute as i128)
    } else {
        absolute as i128
    }
}

/// The number `absolute * 10^power` with a sign, of an absolute value that is not 0.
fn whole_number(negative: bool, absolute: u128, power: u32) -> Number
    requires { 0 < absolute }
    ensures { result ≡ number_from_of negative (absolute * 10 ^ power) 0 }
{
    match 10_u128.checked_pow(power) {
        Some(tens) => match absolute.checked_mul(tens) {
            Some(all) => if all < LARGE {
                Number::Dec {
                    units: signed(negative, all),
                    decimals: 0,
                }
            } else {
                Number::Large { negative }
            },
            None => Number::Large { negative },
        },
        None => Number::Large { negative },
    }
}

/// Whether `absolute / 10^decimals` is at least 10^20.
fn is_large_fraction(absolute: u128, decimals: u32) -> bool
    requires { decimals < 2 ^ 31 }
    ensures { result ≡ nat_le (10 ^ (20 + decimals)) absolute }
{
    match 10_u128.checked_pow(20 + decimals) {
        Some(tens) => tens <= absolute,
        None => false,
    }
}

/// The number `absolute / 10^decimals` with a sign, in the fewest decimals that express it.
fn least_fraction(negative: bool, absolute: u128, decimals: u32) -> Number
    requires small { absolute < 10 ^ 32 }
    requires below { absolute < 10 ^ (20 + decimals) }
    ensures { result ≡ number_from_of negative absolute decimals }
{
    let mut units = absolute;
    let mut places = decimals;
    while places > 0 && units % 10 == 0 {
        units /= 10;
        places -= 1;
    }
    Number::Dec {
        units: signed(negative, units),
        decimals: places,
    }
}

/// A difference that fits.
fn difference(a: i128, b: i128) -> i128
    requires { FitsSigned w128 (a -ℤ b) }
    ensures { result ≡ a -ℤ b }
{
    a - b
}

/// The written exponent of a numeral without its sign, 0 where it has none.
fn exponent_of(body: &[u8]) -> i128
    requires { is_numeral_of body.now ≡ true }
    ensures value { result ≡ signed_of (is_minus_of (exponent_part_of body.now))
        (digits_value (without_sign_of (exponent_part_of body.now))) }
    ensures small { unsigned_abs result < 10 ^ 4 }
{
    let exponent = exponent_part(body);
    signed(is_minus(exponent), value_from(0, without_sign(exponent)))
}

/// The power of ten of a numeral without its sign.
fn power_of(body: &[u8]) -> i128
    requires numeral { is_numeral_of body.now ≡ true }
    requires short { length body.now ≤ 32 }
    ensures value { result ≡ power_of_of body.now }
    ensures small { unsigned_abs result < 2 ^ 30 }
{
    difference(exponent_of(body), fraction_part(body).len() as i128)
}

/// The digits of a numeral without its sign, as a number.
fn digits_of(body: &[u8]) -> u128
    requires numeral { is_numeral_of body.now ≡ true }
    requires short { length body.now ≤ 32 }
    ensures value { result ≡ digits_value (whole_part_of body.now ++ fraction_part_of body.now) }
    ensures small { result < 10 ^ 32 }
{
    value_from(value_from(0, whole_part(body)), fraction_part(body))
}

/// The number `absolute * 10^power` with a sign. 0 has no decimals, whatever the power.
fn number_from(negative: bool, absolute: u128, power: i128) -> Number
    requires small { absolute < 10 ^ 32 }
    requires power { unsigned_abs power < 2 ^ 30 }
    ensures { result ≡ number_from_of negative (over_tens absolute power).0 (over_tens absolute power).1 }
{
    if absolute == 0 {
        return Number::Dec {
            units: 0,
            decimals: 0,
        };
    }
    let places = power.unsigned_abs() as u32;
    if power >= 0 {
        return whole_number(negative, absolute, places);
    }
    if is_large_fraction(absolute, places) {
        return Number::Large { negative };
    }
    least_fraction(negative, absolute, places)
}

/// The number of a numeral without its sign.
fn number_of_numeral(negative: bool, body: &[u8]) -> Number
    requires numeral { is_numeral_of body.now ≡ true }
    requires short { length body.now ≤ 32 }
    ensures { result ≡ number_from_of negative (fraction_of body.now).0 (fraction_of body.now).1 }
{
    number_from(negative, digits_of(body), power_of(body))
}

/// The number that bytes are.
fn number_in(text: &[u8]) -> Option<Number>
    ensures { result ≡ number_of text.now }
{
    if text.len() > MOST_CHARACTERS {
        return None;
    }
    let negative = is_minus(text);
    let body = without_sign(text);
    if is_infinity(body) {
        return Some(Number::Large { negative });
    }
    if !is_numeral(body) {
        return None;
    }
    Some(number_of_numeral(negative, body))
}

/// The number that a text is: an optional sign, then digits with an optional point and an optional exponent of one to four digits,
/// or a word for infinity, in at most 32 characters. A number that is not Large has an absolute value below 10^20. `None` means that the
/// text is no number.
pub fn read_number(text: &str) -> Option<Number>
    ensures number { result ≡ number_of text.now }
    ensures below { IfSome result IsBelowLarge }
{
    number_in(text.as_bytes())
}
