//! Words as names and as numbers.

ghost use Rattle.std.specs.Prelude.{◌≡◌, true};
ghost use Rattle.mps_defs.specs.Numbers.{digits_value};
ghost use Rattle.ips_words.specs.Commands.{is_name as is_name_of, is_number_from, is_numeral as is_numeral_of, is_of_kind as is_of_kind_of};

use crate::commands::Kind;
use decimals::{are_digits, value_from};

/// Whether a word can be a name: it is not empty and does not begin with a minus.
fn is_name(word: &str) -> bool
    ensures { result ≡ is_name_of word.now }
{
    match word.as_bytes() {
        [] => false,
        [first, ..] => *first != b'-',
    }
}

/// Whether a word is 1 to 10 digits without a leading zero but in `0`.
fn is_numeral(word: &[u8]) -> bool
    ensures { result ≡ is_numeral_of word.now }
{
    match word {
        [] => false,
        [_] => are_digits(word),
        [first, ..] => *first != b'0' && word.len() <= 10 && are_digits(word),
    }
}

/// Whether a word is a number from `low` to `high`.
fn is_number(word: &str, low: u32, high: u32) -> bool
    ensures { result ≡ is_number_from low high word.now }
{
    let digits = word.as_bytes();
    if !is_numeral(digits) {
        return false;
    }
    let value = value_from(0, digits);
    u128::from(low) <= value && value <= u128::from(high)
}

/// Whether a word is of a kind.
pub fn is_of_kind(kind: Kind, word: &str) -> bool
    ensures { result ≡ is_of_kind_of kind word.now }
{
    match kind {
        Kind::Name => is_name(word),
        Kind::Number { low, high } => is_number(word, low, high),
    }
}

/// The number that a word is.
pub fn number(word: &str) -> u32
    requires { is_number_from 0 4294967295 word.now ≡ true }
    ensures { result ≡ digits_value word.now }
{
    value_from(0, word.as_bytes()) as u32
}
