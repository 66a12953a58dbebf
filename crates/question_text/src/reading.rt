//! Reading question files.

ghost use Rattle.std.specs.Prelude.{◌≡◌, ◌≤◌, ◌^◌, IfOk, length};
ghost use Rattle.question_text.specs.Lines.{Answers, due, lines_of as lines_of_text};
ghost use Rattle.question_text.specs.QuestionFiles.{AreAskable, question_faults, questions_in, questions_of as questions_of_text};

use crate::asking::{Draft, finished, take_words};
use crate::errors::TextError;
use crate::questions::Questions;
use crate::texts::lines_of;
use std::alloc::Global;

/// The questions of a text that is UTF-8.
fn questions_of(alloc: Global, text: &str) -> Result<Questions, TextError>
    requires { length text.now ≤ 2 ^ 24 }
    ensures questions { Answers (due (question_faults text.now) (questions_in (lines_of_text text.now))) result }
    ensures askable { IfOk result AreAskable }
{
    let lines = lines_of(alloc, text)?;
    let mut draft = Draft::new(alloc);
    for line in lines.read.as_slice() {
        match take_words(alloc, &mut draft, line.0, line.1.as_slice()) {
            Ok(()) => {}
            Err(error) => return Err(error),
        }
    }
    finished(draft, lines.after)
}

/// The questions of a text, or its first refusal: the first line with a fault; then a text without a question, then one that ends
/// before `end`. `Memory` alone says nothing of the text.
pub fn read_questions(alloc: Global, text: &[u8]) -> Result<Questions, TextError>
    requires { length text.now ≤ 2 ^ 24 }
    ensures questions { Answers (questions_of_text text.now) result }
    ensures askable { IfOk result AreAskable }
{
    match str::from_utf8(text) {
        Ok(text) => questions_of(alloc, text),
        Err(_) => Err(TextError::Word { line: 0 }),
    }
}
