//! The parser of words, which takes plain words apart.

ghost use Rattle.std.specs.Prelude.{◌≡◌, IfOk, map, string_bytes};
ghost use Rattle.clap.specs.Words.{app_of, found_of, rows_of};
ghost use Rattle.ips_words.specs.Internal.Parsers.{with_operand as with_operand_of, with_option as with_option_of};
ghost use Rattle.ips_words.specs.Internal.Parsers.{words_parser as words_parser_of, words_rows};

use clap::{Arg, ArgMatches, Command, Error};
use std::alloc::{AllocError, Global};

/// A parser with one operand more.
fn with_operand<'a>(
    alloc: Global,
    parser: Command<'a>,
    id: &'a str,
) -> Result<Command<'a>, AllocError>
    ensures { IfOk result (λ r. app_of r ≡ with_operand_of (app_of parser.entry) id.entry.now) }
{
    parser.arg(Arg::new(alloc, id))
}

/// A parser with one option more, which has a value.
fn with_option<'a>(
    alloc: Global,
    parser: Command<'a>,
    id: &'a str,
    long: &'a str,
) -> Result<Command<'a>, AllocError>
    ensures { IfOk result (λ r. app_of r ≡ with_option_of (app_of parser.entry) id.entry.now long.entry.now) }
{
    parser.arg(Arg::new(alloc, id).long(long))
}

/// The parser of the words of each command: three operands, and every option.
fn words_parser<'a>(alloc: Global) -> Result<Command<'a>, AllocError>
    ensures { IfOk result (λ r. app_of r ≡ words_parser_of) }
{
    let parser = Command::new(alloc, "ipsens");
    let parser = with_operand(alloc, parser, "first")?;
    let parser = with_operand(alloc, parser, "second")?;
    let parser = with_operand(alloc, parser, "third")?;
    let parser = with_option(alloc, parser, "--tree", "tree")?;
    let parser = with_option(alloc, parser, "--proof", "proof")?;
    let parser = with_option(alloc, parser, "--nodes", "nodes")?;
    let parser = with_option(alloc, parser, "--depth", "depth")?;
    let parser = with_option(alloc, parser, "--pivots", "pivots")?;
    let parser = with_option(alloc, parser, "--digits", "digits")?;
    with_option(alloc, parser, "--box", "box")
}

/// What the parser reads of the words, of which the first is the command.
pub fn parsed<'a>(alloc: Global, words: &'a [String]) -> Result<ArgMatches<'a>, Error>
    ensures { IfOk result (λ m. rows_of (found_of m) ≡ words_rows (map string_bytes words.entry.now)) }
{
    let parser = words_parser(alloc)?;
    parser.try_get_matches_from(words)
}
