//! The sweep of lines, one line after another.

ghost use Rattle.std.specs.Prelude.{◌≡◌, ℕ, Some, None, IfOk, map, ◌∷◌, []};
ghost use Rattle.question_text.specs.Lines.{Answers, line_of};
ghost use Rattle.question_text.specs.Internal.Sweeping.{HasMoved, due_after};
ghost use Rattle.question_text.specs.Internal.Taking.{IsNext};

use crate::directions::with_direction;
use crate::errors::TextError;
use crate::heads::head_in;
use crate::sweeps::Sweep;
use crate::words::is_word;
use indexmap::IndexSet;
use std::alloc::Global;

/// A sweep that is begun: the line of its head, what is read of it, the names that have a direction, and whether its end was read.
#[derive(Drop)]
pub struct Begun {
    pub line: u32,
    pub sweep: Sweep,
    pub moved: IndexSet<String>,
    pub is_ended: bool,
}

/// The sweep of a head.
fn begun_by(alloc: Global, line: u32, words: &[&str]) -> Result<Begun, TextError>
    ensures moved { IfOk result (λ b. HasMoved (Some b)) }
    ensures begun { (after : ℕ) → IsNext (due_after after) None (line_of line (map (λ w. w.now) words.now) ∷ []) result }
{
    let sweep = head_in(alloc, line, words)?;
    Ok(Begun {
        line,
        sweep,
        moved: IndexSet::new(alloc),
        is_ended: false,
    })
}

/// The sweep after one more line.
fn continued(alloc: Global, begun: Begun, line: u32, words: &[&str]) -> Result<Begun, TextError>
    requires moved { HasMoved (Some begun) }
    ensures moved { IfOk result (λ b. HasMoved (Some b)) }
    ensures begun { (after : ℕ) → IsNext (due_after after) (Some begun) (line_of line (map (λ w. w.now) words.now) ∷ []) result }
{
    let Begun {
        line: first,
        sweep,
        moved,
        is_ended,
    } = begun;
    if is_ended {
        return Err(TextError::Word { line });
    }
    if is_word("end", words) {
        return Ok(Begun {
            line: first,
            sweep,
            moved,
            is_ended: true,
        });
    }
    let mut moved = moved;
    match with_direction(alloc, sweep, &mut moved, line, words) {
        Ok(sweep) => Ok(Begun {
            line: first,
            sweep,
            moved,
            is_ended: false,
        }),
        Err(error) => Err(error),
    }
}

/// The sweep after a line that is read: its head, or one more line.
pub fn next_of(
    alloc: Global,
    begun: Option<Begun>,
    line: u32,
    words: &[&str],
) -> Result<Begun, TextError>
    requires moved { HasMoved begun }
    ensures moved { IfOk result (λ b. HasMoved (Some b)) }
    ensures begun { (after : ℕ) → IsNext (due_after after) begun (line_of line (map (λ w. w.now) words.now) ∷ []) result }
{
    match begun {
        Some(begun) => continued(alloc, begun, line, words),
        None => begun_by(alloc, line, words),
    }
}

/// The sweep once all lines are taken; `after` is the number of the line after the last one.
pub fn finished(begun: Option<Begun>, after: u32) -> Result<Sweep, TextError>
    ensures { Answers (due_after after begun []) result }
{
    match begun {
        Some(begun) => if begun.is_ended {
            Ok(begun.sweep)
        } else {
            Err(TextError::Unended { line: begun.line })
        },
        None => Err(TextError::Word { line: after }),
    }
}
