//! The lines of a text that are read, each with its number.

ghost use Rattle.std.specs.Prelude.{◌≡◌, ◌≤◌, ◌^◌, ◌∷◌, ◌++◌, [], IfOk, OnOk, length, map};
ghost use Rattle.question_text.specs.Lines.{line_of, lines_from, lines_of as lines_of_text, line_after as line_after_of};

use crate::words::{line_after, words_of};
use std::alloc::{AllocError, Global};
use text_lines::lines_in;

/// The lines of a text that are read, in order, each with its number from 1 and its words; and the number of the line after the last
/// one of the text.
#[derive(Drop)]
pub struct TextLines<'a> {
    pub read: Vec<(u32, Vec<&'a str>)>,
    pub after: u32,
}

/// Adds a line of a text to those that are read, unless it has no words or is a comment.
fn push_line<'a>(
    alloc: Global,
    read: &mut Vec<(u32, Vec<&'a str>)>,
    number: u32,
    text: &'a str,
) -> Result<(), AllocError>
    ensures { OnOk result (map (λ l. line_of l.0 (map (λ w. w.now) l.1.items)) read.new.items
        ≡ map (λ l. line_of l.0 (map (λ w. w.now) l.1.items)) read.old.items ++ lines_from number (text.now ∷ [])) }
{
    match words_of(alloc, text)? {
        Some(words) => read.push((number, words))?,
        None => {}
    }
    Ok(())
}

/// The lines of a text that are read.
pub fn lines_of(alloc: Global, text: &str) -> Result<TextLines, AllocError>
    requires { length text.now ≤ 2 ^ 24 }
    ensures read { IfOk result (λ t. map (λ l. line_of l.0 (map (λ w. w.now) l.1.items)) t.read.items ≡ lines_of_text text.now) }
    ensures after { IfOk result (λ t. t.after ≡ line_after_of text.now) }
{
    let pieces = lines_in(alloc, text)?;
    let mut read = Vec::new(alloc);
    let mut number: u32 = 0;
    for piece in pieces.as_slice() {
        number += 1;
        push_line(alloc, &mut read, number, piece)?;
    }
    Ok(TextLines {
        read,
        after: line_after(text, pieces.len()),
    })
}
