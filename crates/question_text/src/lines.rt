//! One line of a question file: an edit or a `range` question.

ghost use Rattle.std.specs.Prelude.{◌≡◌, ◌||◌, IfOk, map};
ghost use Rattle.decimals.specs.Decimals.{IsBelowLarge};
ghost use Rattle.perturbation.specs.Edits.{written};
ghost use Rattle.question_text.specs.Lines.{Answers};
ghost use Rattle.question_text.specs.QuestionFiles.{IsAskable, IsKeptBelow, aim_in as aim_in_of, change_by as change_by_of};
ghost use Rattle.question_text.specs.QuestionFiles.{change_in as change_in_of, edit_in as edit_in_of, is_change as is_change_of};
ghost use Rattle.question_text.specs.QuestionFiles.{range_in as range_in_of};

use crate::data::{after_datum, datum_in, words_after};
use crate::errors::TextError;
use crate::questions::{AimText, Question};
use crate::words::begins;
use decimals::read_number;
use perturbation::{Change, Edit, Number};
use std::alloc::Global;

/// Whether a word says what becomes of a number.
fn is_change(word: &str) -> bool
    ensures { result ≡ is_change_of word.now }
{
    word == "set" || word == "add"
}

/// What becomes of a number by a word.
fn change_by(word: &str, number: Number) -> Change
    ensures change { result ≡ change_by_of word.now number }
    ensures number { written result ≡ number }
{
    if word == "set" {
        Change::Set(number)
    } else {
        Change::Add(number)
    }
}

/// What becomes of a number, by the words after a datum.
fn change_in(line: u32, words: &[&str]) -> Result<Change, TextError>
    ensures change { Answers (change_in_of line (map (λ w. w.now) words.now)) result }
    ensures below { IfOk result (λ c. IsBelowLarge (written c)) }
{
    match words {
        [word, text] => if is_change(word) {
            match read_number(text) {
                Some(number) => Ok(change_by(word, number)),
                None => Err(TextError::Number { line }),
            }
        } else {
            Err(TextError::Word { line })
        },
        _ => Err(TextError::Word { line }),
    }
}

/// The edit of a line.
pub fn edit_in(alloc: Global, line: u32, words: &[&str]) -> Result<Edit, TextError>
    ensures below { IfOk result (λ e. IsBelowLarge (written e.change)) }
    ensures edit { Answers (edit_in_of line (map (λ w. w.now) words.now)) result }
{
    let datum = match datum_in(alloc, words)? {
        Some(datum) => datum,
        None => return Err(TextError::Word { line }),
    };
    match change_in(line, after_datum(words)) {
        Ok(change) => Ok(Edit { datum, change }),
        Err(error) => Err(error),
    }
}

/// What a range is to keep, by the words after a datum.
fn aim_in(line: u32, words: &[&str]) -> Result<AimText, TextError>
    ensures aim { Answers (aim_in_of line (map (λ w. w.now) words.now)) result }
    ensures below { IfOk result IsKeptBelow }
{
    match words {
        [word] => if *word == "best" {
            Ok(AimText::Best)
        } else {
            Err(TextError::Word { line })
        },
        [word, text] => if *word == "keep" {
            match read_number(text) {
                Some(number) => Ok(AimText::Keep(number)),
                None => Err(TextError::Number { line }),
            }
        } else {
            Err(TextError::Word { line })
        },
        _ => Err(TextError::Word { line }),
    }
}

/// The question of a `range` line.
pub fn range_in(alloc: Global, line: u32, words: &[&str]) -> Result<Question, TextError>
    ensures askable { IfOk result IsAskable }
    ensures question { Answers (range_in_of line (map (λ w. w.now) words.now)) result }
{
    if !begins("range", words) {
        return Err(TextError::Word { line });
    }
    let words = words_after(words, 1);
    let datum = match datum_in(alloc, words)? {
        Some(datum) => datum,
        None => return Err(TextError::Word { line }),
    };
    match aim_in(line, after_datum(words)) {
        Ok(aim) => Ok(Question::Range { datum, aim }),
        Err(error) => Err(error),
    }
}
