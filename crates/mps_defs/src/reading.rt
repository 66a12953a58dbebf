//! What reading a text deals in: numbers, what the caller asks for, and the reasons to refuse a text.

ghost use Rattle.std.specs.Prelude.{◌≡◌};
ghost use Rattle.mps_defs.specs.declared.reading.MpsError.TheVariants as Out;

use ip_defs::{Limit, Name};
use std::alloc::{AllocError, AllocFailed};
use thiserror::Error;

/// A number of a text: `units / 10^decimals` with the fewest decimals that express it, or a number of absolute value 10^20 or more.
#[derive(Clone, Copy, Debug, PartialEq, Eq)]
pub enum Number {
    Dec { units: i128, decimals: u32 },
    Large { negative: bool },
}

/// How a model is read: the fewest decimals that each row and the costs get, and the bound that takes the place of an infinite one: a
/// column without a lower bound gets `-box_side`, one without an upper bound `box_side`.
#[derive(Clone, Copy, Debug, PartialEq, Eq)]
pub struct How {
    pub digits: u8,
    pub box_side: Option<i64>,
}

/// The lower or the upper bound of a column.
#[derive(Clone, Copy, Debug, PartialEq, Eq)]
pub enum Side {
    Lower,
    Upper,
}

/// Why a text is refused. `line` counts from 1.
#[derive(Debug, Drop, Error)]
pub enum MpsError {
    /// The text is not UTF-8.
    #[error("the text is not UTF-8")]
    NotUtf8,
    /// A section is repeated or out of order, or one that it needs is missing; or a data line stands before ROWS.
    #[error("line {line}: a section is out of order")]
    SectionOrder { line: u32 },
    /// The section word is none of the seven.
    #[error("line {line}: unknown section")]
    UnknownSection { line: u32 },
    /// A data line has a number of fields that its section, and in BOUNDS its kind, does not have.
    #[error("line {line}: wrong number of fields")]
    FieldCount { line: u32 },
    /// The kind of a row is none of N, L, G and E.
    #[error("line {line}: unknown kind of row")]
    RowKind { line: u32 },
    /// Two rows have the same name.
    #[error("line {line}: the row stands twice")]
    TwiceRow { line: u32 },
    /// A named row is not in ROWS.
    #[error("line {line}: unknown row")]
    UnknownRow { line: u32 },
    /// A column is continued after a line of another column or a marker.
    #[error("line {line}: the column comes again")]
    SplitColumn { line: u32 },
    /// An entry of a kept row, a right side or a range is written twice.
    #[error("line {line}: the entry is written twice")]
    TwiceEntry { line: u32 },
    /// A field is no number.
    #[error("line {line}: a field is no number")]
    Number { line: u32 },
    /// A marker opens an open range of integer columns, closes one that is not open, or is neither; or a row is named 'MARKER'.
    #[error("line {line}: wrong marker")]
    Marker { line: u32 },
    /// The kind of a bound is none of the nine.
    #[error("line {line}: unknown kind of bound")]
    BoundKind { line: u32 },
    /// A bound names no column.
    #[error("line {line}: unknown column")]
    UnknownColumn { line: u32 },
    /// A column is not integer.
    #[error("column {column} is not integer")]
    Continuous { column: Name },
    /// A column lacks a bound, and no box side can take its place.
    #[error("column {column} has no {side:?} bound")]
    NoBound { column: Name, side: Side },
    /// The last upper bound of a column is UP or UI with a negative number, and no line gives its lower bound.
    #[error("column {column} has a negative upper bound and no lower one")]
    NegativeUpper { column: Name },
    /// A limit is exceeded.
    #[error("a limit is exceeded")]
    Limit { limit: Limit },
    /// ROWS has no N row.
    #[error("there is no objective row")]
    NoObjective,
    /// There is no ENDATA line.
    #[error("there is no ENDATA line")]
    NoEnd,
    /// A kept cost, coefficient, right side, range or constant has more than nine decimals.
    #[error("line {line}: more than nine decimals")]
    Digits { line: u32 },
    /// Out of memory; nothing is said of the text.
    #[error("out of memory")]
    Memory,
}

impl From<AllocError> for MpsError {
    ghost from_gives = { λ _ e. e ≡ Out.Memory };

    fn from(_error: AllocError) -> MpsError {
        MpsError::Memory
    }
}

impl<T: Drop> From<AllocFailed<T>> for MpsError {
    ghost from_gives = { λ _ e. e ≡ Out.Memory };

    fn from(_error: AllocFailed<T>) -> MpsError {
        MpsError::Memory
    }
}
