//! What was read of a text so far.

ghost use Rattle.std.specs.Prelude.{◌≡◌, ◌==◌, [], false};
ghost use Rattle.std.specs.Option.{option_map_or};
ghost use Rattle.mps_reader.specs.Internal.Drafted.{is_free_kind};
ghost use Rattle.mps_reader.specs.Internal.Progress.{Stands};

use crate::sections::Section;
use indexmap::IndexSet;
use mps_defs::{MpsError, Number};
use std::alloc::Global;

/// The kind of a row.
#[derive(Clone, Copy, Debug, PartialEq, Eq)]
pub enum RowKind {
    /// No sides: the objective, or a row that is dropped.
    Free,
    /// At most its right side.
    AtMost,
    /// At least its right side.
    AtLeast,
    /// Equal to its right side.
    Equal,
}

impl RowKind {
    /// Whether a row of this kind has no sides.
    pub fn is_free(self) -> bool
        ensures { result ≡ is_free_kind self }
    {
        match self {
            RowKind::Free => true,
            RowKind::AtMost | RowKind::AtLeast | RowKind::Equal => false,
        }
    }
}

/// A row so far: its kept entries by column number, zeros among them, its kept right side and range, and the most decimals of these.
#[derive(Drop)]
pub struct RowDraft {
    pub kind: RowKind,
    pub entries: Vec<(usize, Number)>,
    pub right_side: Option<Number>,
    pub range: Option<Number>,
    pub decimals: u32,
}

/// The rows so far, by number, dropped ones among them. The set gives the number of a name.
#[derive(Drop)]
pub struct RowTable {
    pub names: IndexSet<String>,
    pub rows: Vec<RowDraft>,
    /// The first free row.
    pub objective: Option<usize>,
}

/// What the last upper bound says: the number that it gives, and whether it is UP or UI with a negative number.
#[derive(Clone, Copy, Debug)]
pub struct UpperBound {
    pub side: Option<i128>,
    pub is_negative: bool,
}

/// A column so far: whether it is known to be integer, the number of its last lower bound, and its last upper bound.
#[derive(Clone, Copy, Debug)]
pub struct ColumnDraft {
    pub is_integer: bool,
    pub lower: Option<Option<i128>>,
    pub upper: Option<UpperBound>,
}

/// The columns so far, by number. The set gives the number of a name.
#[derive(Drop)]
pub struct ColumnTable {
    pub names: IndexSet<String>,
    pub columns: Vec<ColumnDraft>,
    /// Whether the last marker begins integer columns.
    pub in_integers: bool,
    /// The column of the last line of COLUMNS, where that is no marker.
    pub open: Option<usize>,
}

/// Whether a number is this one.
pub fn is_at(place: Option<usize>, number: usize) -> bool
    ensures { result ≡ option_map_or (λ j. j == number) place false }
{
    match place {
        Some(place) => place == number,
        None => false,
    }
}

/// What taking a line, or a part of one, answers: nothing, or its first fault.
pub type Taken = Result<(), MpsError>;

/// The names of the kept sets: those of the first data line of each section.
#[derive(Drop)]
pub struct Sets {
    pub right_sides: Option<String>,
    pub ranges: Option<String>,
    pub bounds: Option<String>,
}

/// What was read of a text so far.
#[derive(Drop)]
pub struct Draft {
    /// The sections so far, in order.
    pub sections: Vec<Section>,
    pub rows: RowTable,
    pub columns: ColumnTable,
    pub sets: Sets,
}

impl Draft {
    /// The draft of no line.
    pub fn new(alloc: Global) -> Draft
        ensures { Stands [] result }
    {
        Draft {
            sections: Vec::new(alloc),
            rows: RowTable {
                names: IndexSet::new(alloc),
                rows: Vec::new(alloc),
                objective: None,
            },
            columns: ColumnTable {
                names: IndexSet::new(alloc),
                columns: Vec::new(alloc),
                in_integers: false,
                open: None,
            },
            sets: Sets {
                right_sides: None,
                ranges: None,
                bounds: None,
            },
        }
    }
}
