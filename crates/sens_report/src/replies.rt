//! The printed text of the replies to questions: a line for each, with its number.

ghost use Rattle.std.specs.Prelude.{◌≡◌, ◌++◌, IfOk, OnOk, decimal, string_bytes};
ghost use Rattle.mps_defs.specs.CanonicalText.{newline};
ghost use Rattle.sens_report.specs.ReplyTexts.{range_text as text_of_range, reply_line, reply_lines, reply_text as text_of_reply};

use crate::amount_texts::bound_text;
use decimals::decimal_text;
use ip_defs::{Bound, Memory};
use std::alloc::{AllocError, Global};

/// The reply to a question. Its amounts are in units, of which a power of ten by the decimals makes a whole one.
#[derive(Clone, Copy, Debug, PartialEq, Eq)]
pub enum Reply {
    /// A bound on the cost of every feasible point of a changed model: an amount, or infinite where there is no such point.
    Bound {
        bound: Bound,
        decimals: u8,
    },
    /// The allowable range of a datum: the least and the greatest change of it, in units of the datum; or that it has none.
    Range {
        run: Option<(i128, i128)>,
        decimals: u8,
    },
}

/// The text of a range, from its least change to its greatest.
fn range_text(alloc: Global, run: Option<(i128, i128)>, decimals: u8) -> Result<String, Memory>
    ensures { IfOk result (λ s. string_bytes s ≡ text_of_range run decimals) }
{
    match run {
        Some((least, greatest)) => {
            let mut text = decimal_text(alloc, least, decimals)?;
            let greatest = decimal_text(alloc, greatest, decimals)?;
            text.push_str(" ")?;
            text.push_str(greatest.as_str())?;
            Ok(text)
        }
        None => Ok(String::from_str(alloc, "none")?),
    }
}

/// The text of a reply after its number: a blank, the word of what was asked, and what it comes to.
fn reply_words(alloc: Global, reply: Reply) -> Result<String, Memory>
    ensures { IfOk result (λ s. string_bytes s ≡ text_of_reply reply) }
{
    match reply {
        Reply::Bound { bound, decimals } => {
            let bound = bound_text(alloc, bound, decimals)?;
            let bound = bound.as_str();
            Ok(format!(in alloc; " bound {bound}")?)
        }
        Reply::Range { run, decimals } => {
            let range = range_text(alloc, run, decimals)?;
            let range = range.as_str();
            Ok(format!(in alloc; " range {range}")?)
        }
    }
}

/// A line of a reply: its number, its words and the end of the line.
fn numbered_line(alloc: Global, number: usize, words: &str) -> Result<String, AllocError>
    ensures { IfOk result (λ s. string_bytes s ≡ decimal number ++ words.now ++ newline) }
{
    let mut line = format!(in alloc; "{number}")?;
    line.push_str(words)?;
    line.push_str("\n")?;
    Ok(line)
}

/// Adds the line of a reply with its number.
fn push_reply(alloc: Global, number: usize, reply: Reply, text: &mut String) -> Result<(), Memory>
    ensures { OnOk result (string_bytes text.new ≡ string_bytes text.old ++ reply_line (number, reply)) }
{
    let words = reply_words(alloc, reply)?;
    let line = numbered_line(alloc, number, words.as_str())?;
    text.push_str(line.as_str())?;
    Ok(())
}

/// The lines of replies, in order, numbered from 1.
fn all_lines(alloc: Global, replies: &[Reply]) -> Result<String, Memory>
    ensures { IfOk result (λ s. string_bytes s ≡ reply_lines replies.now) }
{
    let mut text = String::new(alloc);
    for (j, reply) in replies.iter().enumerate() {
        push_reply(alloc, j + 1, *reply, &mut text)?;
    }
    Ok(text)
}

/// The text of replies, a line for each in order with its number K from 1: `K bound V`, `K bound empty`, `K range A B` or `K range none`.
/// Amounts are in units with the decimals of their reply. `Memory` means out of memory.
pub fn reply_text(alloc: Global, replies: &[Reply]) -> Result<Vec<u8>, Memory>
    ensures text { IfOk result (λ text. text.items ≡ reply_lines replies.now) }
{
    let text = all_lines(alloc, replies)?;
    Ok(text.into_bytes())
}
