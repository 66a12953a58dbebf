//! The words of a line, and how many lines a text has.

ghost use Rattle.std.specs.Prelude.{◌≡◌, ◌==◌, ◌≤◌, ◌^◌, IfOk, length, map, option_map};
ghost use Rattle.std.specs.List.{slice_split};
ghost use Rattle.mps_defs.specs.Records.{is_line_end};
ghost use Rattle.question_text.specs.Lines.{begins as begins_of, is_word as is_word_of, line_after as line_after_of, read_words};

use std::alloc::{AllocError, Global};
use text_lines::{cut_return, fields_of, is_comment};

/// The words of a line, where it has any and the first one does not begin a comment.
pub fn words_of(alloc: Global, text: &str) -> Result<Option<Vec<&str>>, AllocError>
    ensures { IfOk result (λ o. option_map (λ v. map (λ w. w.now) v.items) o ≡ read_words text.now) }
{
    let words = fields_of(alloc, cut_return(text))?;
    match words.first() {
        Some(first) => if is_comment(first) {
            Ok(None)
        } else {
            Ok(Some(words))
        },
        None => Ok(None),
    }
}

/// The number of the line after the last one. The text has this many pieces between line ends.
pub fn line_after(text: &str, pieces: usize) -> u32
    requires pieces { pieces ≡ length (slice_split is_line_end text.now) }
    requires few { pieces ≤ 2 ^ 25 }
    ensures { result ≡ line_after_of text.now }
{
    match text.as_bytes() {
        [] => pieces as u32,
        [.., last] => if *last == b'\n' {
            pieces as u32
        } else {
            pieces as u32 + 1
        },
    }
}

/// Whether a line is one word.
pub fn is_word(word: &str, words: &[&str]) -> bool
    ensures { result ≡ is_word_of word.now (map (λ w. w.now) words.now) }
{
    match words {
        [only] => *only == word,
        _ => false,
    }
}

/// Whether a line begins with a word.
pub fn begins(word: &str, words: &[&str]) -> bool
    ensures { result ≡ begins_of word.now (map (λ w. w.now) words.now) }
{
    match words {
        [first, ..] => *first == word,
        [] => false,
    }
}
