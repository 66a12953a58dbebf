//! Edits: the datum that one names, what becomes of its number, and why an edit or a line of models is refused.

ghost use Rattle.std.specs.Prelude.{◌≡◌};
ghost use Rattle.perturbation.specs.declared.edits.EditError.TheVariants as Refused;
ghost use Rattle.perturbation.specs.declared.edits.LineError.TheVariants as Stopped;

use decimals::Number;
use ip_defs::{Memory, Name};

/// A number of a model by the names of its column and row. A name means the first column or row that has it.
#[derive(Debug, Drop)]
pub enum Datum {
    /// The cost of a column.
    Cost { column: Name },
    /// The low side of a row.
    Low { row: Name },
    /// The high side of a row.
    High { row: Name },
    /// The coefficient of a column in a row; 0 where none is listed.
    Coef { row: Name, column: Name },
    /// The lower bound of a column.
    Lower { column: Name },
    /// The upper bound of a column.
    Upper { column: Name },
}

/// What becomes of a number: another one takes its place, or is added to it. Both are as written, that is, not yet counted in the
/// units of the row or of the costs.
#[derive(Clone, Copy, Debug, PartialEq, Eq)]
pub enum Change {
    Set(Number),
    Add(Number),
}

/// An edit of one number of a model.
#[derive(Debug, Drop)]
pub struct Edit {
    pub datum: Datum,
    pub change: Change,
}

/// Why a datum has no place in a model.
#[derive(Clone, Copy, Debug, PartialEq, Eq)]
pub enum PlaceError {
    /// No column or no row has the name.
    UnknownName,
    /// The row does not have the named side.
    NoSide,
}

/// Why an edit is refused. `edit` is its number in the list of edits, counted from 1.
#[derive(Clone, Copy, Debug, PartialEq, Eq)]
pub enum EditError {
    /// No column or no row has the name.
    UnknownName { edit: u32 },
    /// The number is not Large, and not whole in the units of its row, of the costs, or of column bounds, which have no decimals.
    OffGrid { edit: u32 },
    /// The number is Large, or the new number or the count of coefficients exceeds its limit.
    Limit { edit: u32 },
    /// The row does not have the named side.
    NoSide { edit: u32 },
    /// Out of memory; nothing is said of the edits.
    Memory,
}

impl From<Memory> for EditError {
    ghost from_gives = { λ _ e. e ≡ Refused.Memory };

    fn from(_error: Memory) -> EditError {
        EditError::Memory
    }
}

/// Why a model of a line of models does not exist.
#[derive(Clone, Copy, Debug, PartialEq, Eq)]
pub enum LineError {
    /// The cost of a column, or the side of a row, exceeds its limit. `column` is the number of that column; on a line of sides it is
    /// the number of that row.
    Limit { column: u32 },
    /// Out of memory; nothing is said of the model.
    Memory,
}

impl From<Memory> for LineError {
    ghost from_gives = { λ _ e. e ≡ Stopped.Memory };

    fn from(_error: Memory) -> LineError {
        LineError::Memory
    }
}
