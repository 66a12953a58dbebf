//! Reading sweep files.

ghost use Rattle.std.specs.Prelude.{◌≡◌, ◌≤◌, ◌^◌, IfOk, length};
ghost use Rattle.mps_defs.specs.Lists.{AreDistinct};
ghost use Rattle.question_text.specs.Lines.{Answers, line_after, lines_of as lines_of_text};
ghost use Rattle.question_text.specs.SweepFiles.{IsFollowable, moved_by, sweep_in, sweep_of as sweep_of_text};

use crate::errors::TextError;
use crate::sweeping::{finished, next_of};
use crate::sweeps::Sweep;
use crate::texts::lines_of;
use std::alloc::Global;

/// The sweep of a text that is UTF-8.
fn sweep_of(alloc: Global, text: &str) -> Result<Sweep, TextError>
    requires { length text.now ≤ 2 ^ 24 }
    ensures { Answers (sweep_in (line_after text.now) (lines_of_text text.now)) result }
{
    let lines = lines_of(alloc, text)?;
    let mut begun = None;
    for line in lines.read.as_slice() {
        begun = match next_of(alloc, begun.take(), line.0, line.1.as_slice()) {
            Ok(next) => Some(next),
            Err(error) => return Err(error),
        };
    }
    finished(begun, lines.after)
}

/// The sweep of a text, or its first refusal: the first line with a fault; then a text without a sweep, or one that ends before `end`.
/// `Memory` alone says nothing of the text.
pub fn read_sweep(alloc: Global, text: &[u8]) -> Result<Sweep, TextError>
    requires { length text.now ≤ 2 ^ 24 }
    ensures sweep { Answers (sweep_of_text text.now) result }
    ensures followable { IfOk result IsFollowable }
    ensures distinct { IfOk result (λ s. AreDistinct (moved_by s)) }
{
    match str::from_utf8(text) {
        Ok(text) => sweep_of(alloc, text),
        Err(_) => Err(TextError::Word { line: 0 }),
    }
}
