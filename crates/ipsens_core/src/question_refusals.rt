//! The printed texts of the refusals of a questions file and of a sweep file, of questions and of directions.

ghost use Rattle.std.specs.Prelude.{◌≡◌, ◌++◌, IfOk, IfSome, codes, string_bytes};
ghost use Rattle.ipsens_core.specs.ModelRefusals.{on_line};
ghost use Rattle.ipsens_core.specs.QuestionRefusals.{edit_text, on_edit, refused_question, text_fault};
ghost use Rattle.ipsens_core.specs.QuestionRefusals.{why_text};
ghost use Rattle.ipsens_core.specs.Refusals.{refused};

use crate::refusals::refused_at;
use ip_defs::Memory;
use question_text::TextError;
use std::alloc::Global;
use tree_replies::{EditError, Refusal};

/// What is printed for a questions file that is too long.
pub const QUESTIONS_TOO_LONG: &str = "refused questions too long\n";

/// The word of a fault, and its line; none where memory ran out.
fn fault_at(error: TextError) -> Option<(&'static str, u32)>
    ensures { IfSome result (λ at. text_fault error ≡ at.0.now ++ on_line at.1) }
{
    match error {
        TextError::Word { line } => Some(("Q1", line)),
        TextError::Number { line } => Some(("Q2", line)),
        TextError::Unended { line } => Some(("Q3", line)),
        TextError::Direction { line } => Some(("Q4", line)),
        TextError::Interval { line } => Some(("Q5", line)),
        TextError::Memory => None,
    }
}

/// The line of a file with a fault in its text. The file is `questions` or `sweep`.
pub fn text_fault_line(alloc: Global, file: &str, error: TextError) -> Result<String, Memory>
    ensures { IfOk result (λ s. string_bytes s ≡ refused file.now (text_fault error)) }
{
    match fault_at(error) {
        Some((word, line)) => refused_at(alloc, file, word, "line", u64::from(line)),
        None => Err(Memory),
    }
}

/// The word of a refusal, and the number of the edit; none where memory ran out.
fn refusal_at(error: EditError) -> Option<(&'static str, u32)>
    ensures { IfSome result (λ at. edit_text error ≡ at.0.now ++ on_edit at.1) }
{
    match error {
        EditError::UnknownName { edit } => Some(("P1", edit)),
        EditError::OffGrid { edit } => Some(("P2", edit)),
        EditError::Limit { edit } => Some(("P3", edit)),
        EditError::NoSide { edit } => Some(("P4", edit)),
        EditError::Memory => None,
    }
}

/// What is printed for an edit that is refused.
fn edit_words(alloc: Global, error: EditError) -> Result<String, Memory>
    ensures { IfOk result (λ s. string_bytes s ≡ edit_text error) }
{
    match refusal_at(error) {
        Some((word, edit)) => Ok(format!(in alloc; "{word} edit {edit}")?),
        None => Err(Memory),
    }
}

/// The line of a direction of a sweep file that is refused.
pub fn direction_line(alloc: Global, error: EditError) -> Result<String, Memory>
    ensures { IfOk result (λ s. string_bytes s ≡ refused (codes "sweep") (edit_text error)) }
{
    match refusal_at(error) {
        Some((word, edit)) => refused_at(alloc, "sweep", word, "edit", u64::from(edit)),
        None => Err(Memory),
    }
}

/// What is printed for a question that is refused, after its number.
fn refusal_words(alloc: Global, why: Refusal) -> Result<String, Memory>
    ensures { IfOk result (λ s. string_bytes s ≡ why_text why) }
{
    match why {
        Refusal::Edit(error) => edit_words(alloc, error),
        Refusal::NoBest => Ok(String::from_str(alloc, "A1")?),
    }
}

/// The line of a question that is refused, by its number.
pub fn question_line(alloc: Global, question: usize, why: Refusal) -> Result<String, Memory>
    ensures { IfOk result (λ s. string_bytes s ≡ refused_question question why) }
{
    let words = refusal_words(alloc, why)?;
    let mut line = format!(in alloc; "refused question {question} ")?;
    line.push_str(words.as_str())?;
    line.push_str("\n")?;
    Ok(line)
}
