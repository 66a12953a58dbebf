//! The data that words name.

ghost use Rattle.std.specs.Prelude.{◌≡◌, IfOk, drop, map};
ghost use Rattle.question_text.specs.Lines.{after_datum as after_datum_of, datum_in as datum_in_of};
ghost use Rattle.question_text.specs.Lines.{named_datum as named_datum_of};
ghost use Rattle.perturbation.specs.declared.edits.Datum.TheVariants as Datum;

use crate::words::begins;
use ip_defs::Name;
use perturbation::Datum;
use std::alloc::{AllocError, Global};

/// A name.
pub fn name_of(alloc: Global, text: &str) -> Result<Name, AllocError>
    ensures { IfOk result (λ n. n ≡ text.now) }
{
    Ok(Name::new(String::from_str(alloc, text)?))
}

/// The datum of a word and one name.
fn named_datum(alloc: Global, word: &str, name: &str) -> Result<Option<Datum>, AllocError>
    ensures { IfOk result (λ o. o ≡ named_datum_of word.now name.now) }
{
    match word {
        "cost" => Ok(Some(Datum::Cost {
            column: name_of(alloc, name)?,
        })),
        "low" => Ok(Some(Datum::Low {
            row: name_of(alloc, name)?,
        })),
        "high" => Ok(Some(Datum::High {
            row: name_of(alloc, name)?,
        })),
        "lower" => Ok(Some(Datum::Lower {
            column: name_of(alloc, name)?,
        })),
        "upper" => Ok(Some(Datum::Upper {
            column: name_of(alloc, name)?,
        })),
        _ => Ok(None),
    }
}

/// The coefficient of a column in a row.
fn coefficient(alloc: Global, row: &str, column: &str) -> Result<Datum, AllocError>
    ensures { IfOk result (λ d. d ≡ Datum.Coef row.now column.now) }
{
    Ok(Datum::Coef {
        row: name_of(alloc, row)?,
        column: name_of(alloc, column)?,
    })
}

/// The datum that words begin with.
pub fn datum_in(alloc: Global, words: &[&str]) -> Result<Option<Datum>, AllocError>
    ensures { IfOk result (λ o. o ≡ datum_in_of (map (λ w. w.now) words.now)) }
{
    match words {
        [word, name, column, ..] => if *word == "coef" {
            Ok(Some(coefficient(alloc, name, column)?))
        } else {
            named_datum(alloc, word, name)
        },
        [word, name] => named_datum(alloc, word, name),
        _ => Ok(None),
    }
}

/// The words after the first ones.
pub fn words_after<'a, 'b>(words: &'a [&'b str], count: usize) -> &'a [&'b str]
    ensures { map (λ w. w.now) result.now ≡ drop count (map (λ w. w.now) words.now) }
{
    if count <= words.len() {
        &words[count..]
    } else {
        &words[words.len()..]
    }
}

/// The words after a datum.
pub fn after_datum<'a, 'b>(words: &'a [&'b str]) -> &'a [&'b str]
    ensures { map (λ w. w.now) result.now ≡ after_datum_of (map (λ w. w.now) words.now) }
{
    let count = if begins("coef", words) { 3 } else { 2 };
    words_after(words, count)
}
