//! Which words are plain.

ghost use Rattle.std.specs.Prelude.{◌≡◌, ◌&&◌, not, map, option_map, find, bytes_eq, string_bytes};
ghost use Rattle.mps_defs.specs.Lists.{is_among};
ghost use Rattle.ips_words.specs.Commands.{are_options as are_options_of, are_plain_for, begin_with as begin_with_of};
ghost use Rattle.ips_words.specs.Commands.{is_choice as is_choice_of, twos};
ghost use Rattle.ips_words.specs.Internal.Rows.{choice_row, command_row};

use crate::commands::{Choice, Command, Kind};
use crate::kinds::is_of_kind;

/// Whether words begin with words of some kinds.
fn begin_with(kinds: &[Kind], words: &[String]) -> bool
    ensures { result ≡ begin_with_of kinds.now (map string_bytes words.now) }
{
    match kinds {
        [] => true,
        [kind, more @ ..] => match words {
            [] => false,
            [word, rest @ ..] => is_of_kind(*kind, word.as_str()) && begin_with(more, rest),
        },
    }
}

/// The first option of the list with a word.
fn choice_named<'a>(choices: &'a [Choice], option: &str) -> Option<&'a Choice>
    ensures { option_map (λ c. c.now) result ≡ find (λ c. bytes_eq c.word.now option.now) choices.now }
{
    choices.iter().find(|choice| choice.word == option)
}

/// Whether an option is one of the list that is built, with a value that it takes.
#[tactic(auto, using(crate::proofs::PlainLaws::choice_found))]
fn is_choice(choices: &[Choice], option: &str, value: &str) -> bool
    ensures { result ≡ is_choice_of (map choice_row choices.now) (option.now, value.now) }
{
    match choice_named(choices, option) {
        Some(choice) => choice.built && is_of_kind(choice.value, value),
        None => false,
    }
}

/// Whether an option is among options with their values.
#[tactic(auto, using(crate::proofs::PlainLaws::twos_few))]
fn is_given(words: &[String], option: &str) -> bool
    ensures { result ≡ is_among option.now (map (λ p. p.0) (twos (map string_bytes words.now))) }
{
    let mut rest = words;
    while let [word, _, more @ ..] = rest {
        if option == word.as_str() {
            return true;
        }
        rest = more;
    }
    false
}

/// Whether an option is one of the list, with a value that it takes, and is not given again.
fn is_new_choice(choices: &[Choice], option: &str, value: &str, later: &[String]) -> bool
    ensures { result ≡ (is_choice_of (map choice_row choices.now) (option.now, value.now)
        && not (is_among option.now (map (λ p. p.0) (twos (map string_bytes later.now))))) }
{
    is_choice(choices, option, value) && !is_given(later, option)
}

/// Whether words are options of the list, each with its value and none twice.
#[tactic(auto, using(crate::proofs::PlainLaws::twos_few))]
fn are_options(choices: &[Choice], words: &[String]) -> bool
    ensures { result ≡ are_options_of (map choice_row choices.now) (map string_bytes words.now) }
{
    let mut rest = words;
    while let [option, value, more @ ..] = rest {
        if !is_new_choice(choices, option.as_str(), value.as_str(), more) {
            return false;
        }
        rest = more;
    }
    rest.is_empty()
}

/// Whether the words after a command are its operands and options of it, and it is built.
pub fn are_plain(command: Command, words: &[String]) -> bool
    ensures { result ≡ are_plain_for (command_row command) (map string_bytes words.now) }
{
    let operands = command.operands();
    command.is_built()
        && begin_with(operands, words)
        && are_options(command.choices(), &words[operands.len()..])
}
