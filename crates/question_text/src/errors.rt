//! Why a question file or a sweep file is refused.

ghost use Rattle.std.specs.Prelude.{◌≡◌};
ghost use Rattle.question_text.specs.declared.errors.TextError.TheVariants as Refused;

use std::alloc::AllocError;
use thiserror::Error;

/// Why a question file or a sweep file is refused. `line` counts from 1.
#[derive(Clone, Copy, Debug, PartialEq, Eq, Error)]
pub enum TextError {
    /// A line cannot stand where it stands, has another number of fields, names a column or side of a direction a second time, or comes
    /// after the end of a sweep; the text is not UTF-8, with line 0; or it has no question or no sweep, with the line after the last.
    #[error("line {line}: unexpected words")]
    Word { line: u32 },
    /// A field that must be a number, or a whole number, is none.
    #[error("line {line}: a field is no number")]
    Number { line: u32 },
    /// The text ends before the `end` of a question or sweep. The line is that of its first word.
    #[error("line {line}: the end is missing")]
    Unended { line: u32 },
    /// A high side is to fall, or a low side is to rise.
    #[error("line {line}: the side moves inwards")]
    Direction { line: u32 },
    /// An interval is empty, too wide or too far from 0, or there are too many steps.
    #[error("line {line}: wrong interval")]
    Interval { line: u32 },
    /// Out of memory; nothing is said of the text.
    #[error("out of memory")]
    Memory,
}

impl From<AllocError> for TextError {
    ghost from_gives = { λ _ e. e ≡ Refused.Memory };

    fn from(_error: AllocError) -> TextError {
        TextError::Memory
    }
}
