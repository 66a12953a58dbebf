//! The request of a command, of what the parser read.

ghost use Rattle.std.specs.Prelude.{◌≡◌, IfOk, true};
ghost use Rattle.clap.specs.Words.{first_value, found_of};
ghost use Rattle.ips_words.specs.Commands.{box_of, depth_of, digits_of, is_number_from, nodes_of, pivots_of};
ghost use Rattle.ips_words.specs.Internal.Parsers.{read_operand};
ghost use Rattle.ips_words.specs.Internal.Parts.{HasLimits, HasReading};
ghost use Rattle.ips_words.specs.Internal.Rows.{command_row};

use crate::commands::Command;
use crate::kinds::number;
use crate::options::{given_name, given_number, number_of, operand};
use crate::requests::Request;
use clap::ArgMatches;
use mps_defs::How;
use std::alloc::{AllocError, Global};

/// The limits of a search.
#[derive(Clone, Copy, Debug, PartialEq, Eq)]
struct Limits {
    nodes: u32,
    depth: u32,
    pivots: u32,
}

/// The limits that options give to a search.
fn limits_by(matches: &ArgMatches<'_>) -> Limits
    requires { HasLimits (first_value (found_of matches.now)) }
    ensures nodes { result.nodes ≡ nodes_of (first_value (found_of matches.now)) }
    ensures depth { result.depth ≡ depth_of (first_value (found_of matches.now)) }
    ensures pivots { result.pivots ≡ pivots_of (first_value (found_of matches.now)) }
{
    Limits {
        nodes: number_of(matches, "--nodes", 100_000),
        depth: number_of(matches, "--depth", 800),
        pivots: number_of(matches, "--pivots", 5_000),
    }
}

/// How options ask for the model to be read.
fn how_by(matches: &ArgMatches<'_>) -> How
    requires { HasReading (first_value (found_of matches.now)) }
    ensures digits { result.digits ≡ digits_of (first_value (found_of matches.now)) }
    ensures box_side { result.box_side ≡ box_of (first_value (found_of matches.now)) }
{
    How {
        digits: number_of(matches, "--digits", 0) as u8,
        box_side: given_number(matches, "--box").map(|side| i64::from(side)),
    }
}

/// The request of a command, of what the parser read.
pub fn request_by(
    alloc: Global,
    command: Command,
    matches: &ArgMatches<'_>,
) -> Result<Request, AllocError>
    requires limits { HasLimits (first_value (found_of matches.now)) }
    requires reading { HasReading (first_value (found_of matches.now)) }
    requires number { command ≡ Command.Trial → is_number_from 0 4294967295 (read_operand (found_of matches.now) 0) ≡ true }
    ensures { let found = found_of matches.now in
        IfOk result (λ q. q ≡ (command_row command).request (read_operand found) (first_value found)) }
{
    let first = operand(alloc, matches, "first")?;
    let second = operand(alloc, matches, "second")?;
    let third = operand(alloc, matches, "third")?;
    let Limits {
        nodes,
        depth,
        pivots,
    } = limits_by(matches);
    let How { digits, box_side } = how_by(matches);
    match command {
        Command::Solve => Ok(Request::Solve {
            model: first,
            tree: given_name(alloc, matches, "--tree")?,
            nodes,
            depth,
            pivots,
            digits,
            box_side,
        }),
        Command::Check => Ok(Request::Check {
            model: first,
            tree: second,
            digits,
            box_side,
        }),
        Command::Ask => Ok(Request::Ask {
            model: first,
            tree: second,
            questions: third,
            digits,
            box_side,
        }),
        Command::Sweep => Ok(Request::Sweep {
            model: first,
            sweep: second,
            proof: given_name(alloc, matches, "--proof")?,
            nodes,
            depth,
            pivots,
            digits,
            box_side,
        }),
        Command::Recheck => Ok(Request::Recheck {
            model: first,
            sweep: second,
            proof: third,
            digits,
            box_side,
        }),
        Command::Show => Ok(Request::Show {
            model: first,
            digits,
            box_side,
        }),
        Command::Trial => Ok(Request::Trial {
            number: number(first.as_str()),
        }),
    }
}
