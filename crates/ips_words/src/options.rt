//! What the parser read of operands and options.

ghost use Rattle.std.specs.Prelude.{◌≡◌, [], IfOk, option_map, unwrap_or};
ghost use Rattle.mps_defs.specs.Numbers.{digits_value};
ghost use Rattle.clap.specs.Words.{first_value, found_of};
ghost use Rattle.ips_words.specs.Commands.{number_of as number_of_option};
ghost use Rattle.ips_words.specs.Internal.Parts.{HasNumber};

use crate::kinds::number;
use clap::ArgMatches;
use ip_defs::Name;
use std::alloc::{AllocError, Global};

/// The number of an option, where it is given.
pub fn given_number(matches: &ArgMatches<'_>, option: &str) -> Option<u32>
    requires { HasNumber option.now 0 4294967295 (first_value (found_of matches.now)) }
    ensures { result ≡ option_map digits_value (first_value (found_of matches.now) option.now) }
{
    match matches.get_str(option) {
        Some(value) => Some(number(value)),
        None => None,
    }
}

/// The number of an option, or its default.
pub fn number_of(matches: &ArgMatches<'_>, option: &str, default: u32) -> u32
    requires { HasNumber option.now 0 4294967295 (first_value (found_of matches.now)) }
    ensures { result ≡ number_of_option option.now default (first_value (found_of matches.now)) }
{
    match given_number(matches, option) {
        Some(number) => number,
        None => default,
    }
}

/// The name that an option gives, where it is given.
pub fn given_name(
    alloc: Global,
    matches: &ArgMatches<'_>,
    option: &str,
) -> Result<Option<Name>, AllocError>
    ensures { IfOk result (λ name. name ≡ first_value (found_of matches.now) option.now) }
{
    match matches.get_str(option) {
        Some(value) => Ok(Some(Name::new(String::from_str(alloc, value)?))),
        None => Ok(None),
    }
}

/// The name that an operand is, empty where there is none.
pub fn operand(alloc: Global, matches: &ArgMatches<'_>, id: &str) -> Result<Name, AllocError>
    ensures { IfOk result (λ name. name ≡ unwrap_or (first_value (found_of matches.now) id.now) []) }
{
    match matches.get_str(id) {
        Some(name) => Ok(Name::new(String::from_str(alloc, name)?)),
        None => Ok(Name::new(String::new(alloc))),
    }
}
