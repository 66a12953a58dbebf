//! The questions of lines, one line after another.

ghost use Rattle.std.specs.Prelude.{◌≡◌, ℕ, ◌+◌, ◌<◌, Some, None, Ok, IfOk, OnOk, length, map, ◌∷◌, []};
ghost use Rattle.perturbation.specs.Edits.{AreBelowLarge};
ghost use Rattle.question_text.specs.Lines.{Answers, line_of};
ghost use Rattle.question_text.specs.QuestionFiles.{AreAskable, edit_in as edit_in_of, range_in as range_in_of};
ghost use Rattle.question_text.specs.Internal.Asking.{IsKept, due_after};
ghost use Rattle.question_text.specs.Internal.Taking.{IsPushed, IsTaken};
ghost use Rattle.question_text.specs.declared.questions.Question.TheVariants.{Ask};

use crate::errors::TextError;
use crate::lines::{edit_in, range_in};
use crate::questions::{Edits, Question, Questions};
use crate::words::is_word;
use std::alloc::Global;

/// A `bound` question that is not ended: its line, and its edits so far.
#[derive(Drop)]
pub struct Pending {
    pub line: u32,
    pub edits: Edits,
}

/// What the lines so far ask: the questions that are ended, and the one that is not.
#[derive(Drop)]
pub struct Draft {
    pub questions: Questions,
    pub pending: Option<Pending>,
}

impl Draft {
    /// No question yet.
    pub fn new(alloc: Global) -> Draft
        ensures { result ≡ record { questions = []; pending = None } }
    {
        Draft {
            questions: Questions::from_vec(Vec::new(alloc)),
            pending: None,
        }
    }
}

/// Takes a line outside of a `bound` question.
fn take_outside(
    alloc: Global,
    draft: &mut Draft,
    line: u32,
    words: &[&str],
) -> Result<(), TextError>
    requires none { draft.old.pending ≡ None }
    requires kept { IsKept line draft.old }
    ensures kept { OnOk result (IsKept (line + 1) draft.new) }
    ensures taken { (after : ℕ) → IsTaken (due_after after) draft.old draft.new (line_of line (map (λ w. w.now) words.now) ∷ []) result }
{
    if is_word("bound", words) {
        draft.pending = Some(Pending {
            line,
            edits: Edits::from_vec(Vec::new(alloc)),
        });
        return Ok(());
    }
    let question = range_in(alloc, line, words)?;
    draft.questions.push(question)?;
    Ok(())
}

/// Adds the edit of a line.
fn push_edit(alloc: Global, edits: &mut Edits, line: u32, words: &[&str]) -> Result<(), TextError>
    requires few { length edits.old < line }
    requires below { AreBelowLarge edits.old }
    ensures few { OnOk result (length edits.new < line + 1) }
    ensures below { OnOk result (AreBelowLarge edits.new) }
    ensures edit { IsPushed (edit_in_of line (map (λ w. w.now) words.now)) edits.old edits.new result }
{
    let edit = edit_in(alloc, line, words)?;
    edits.push(edit)?;
    Ok(())
}

/// Ends a `bound` question.
fn close(questions: &mut Questions, edits: Edits) -> Result<(), TextError>
    ensures { IsPushed (Ok (Ask edits)) questions.old questions.new result }
{
    questions.push(Question::Ask(edits))?;
    Ok(())
}

/// Takes a line inside a `bound` question.
fn take_inside(
    alloc: Global,
    draft: &mut Draft,
    pending: Pending,
    line: u32,
    words: &[&str],
) -> Result<(), TextError>
    requires none { draft.old.pending ≡ None }
    requires kept { IsKept line (record draft.old { pending = Some pending }) }
    ensures kept { OnOk result (IsKept (line + 1) draft.new) }
    ensures taken { (after : ℕ) → IsTaken (due_after after) (record draft.old { pending = Some pending }) draft.new
        (line_of line (map (λ w. w.now) words.now) ∷ []) result }
{
    let Pending { line: first, edits } = pending;
    if is_word("end", words) {
        return close(&mut draft.questions, edits);
    }
    let mut edits = edits;
    push_edit(alloc, &mut edits, line, words)?;
    draft.pending = Some(Pending { line: first, edits });
    Ok(())
}

/// Takes a line that is read.
pub fn take_words(
    alloc: Global,
    draft: &mut Draft,
    line: u32,
    words: &[&str],
) -> Result<(), TextError>
    requires kept { IsKept line draft.old }
    ensures kept { OnOk result (IsKept (line + 1) draft.new) }
    ensures taken { (after : ℕ) → IsTaken (due_after after) draft.old draft.new (line_of line (map (λ w. w.now) words.now) ∷ []) result }
{
    match draft.pending.take() {
        Some(pending) => take_inside(alloc, draft, pending, line, words),
        None => take_outside(alloc, draft, line, words),
    }
}

/// The questions once all lines are taken; `after` is the number of the line after the last one.
pub fn finished(draft: Draft, after: u32) -> Result<Questions, TextError>
    requires { AreAskable draft.questions }
    ensures askable { IfOk result AreAskable }
    ensures questions { Answers (due_after after draft []) result }
{
    let Draft { questions, pending } = draft;
    match pending {
        Some(pending) => Err(TextError::Unended { line: pending.line }),
        None => if questions.as_slice().is_empty() {
            Err(TextError::Word { line: after })
        } else {
            Ok(questions)
        },
    }
}
