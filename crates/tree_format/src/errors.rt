//! The faults of tree files, each with its place.
ghost use Rattle.std.specs.Prelude.{◌≡◌};

use ip_defs::Memory;
use std::alloc::{AllocError, AllocFailed};
use std::error::Error;
use std::fmt;

/// Why bytes are no tree file: the first fault, by the number of its byte from 0. Or memory ran out.
#[derive(Clone, Copy, Debug, PartialEq, Eq)]
pub enum TreeError {
    /// A byte of the first five differs.
    Magic { place: u64 },
    /// The bytes end where the grammar goes on; the place is their number.
    Cut { place: u64 },
    /// A number is longer than its shortest spelling; the place is its first byte, here and in the next three.
    LongNumber { place: u64 },
    /// A row is not above the row before it.
    Order { place: u64 },
    /// A multiplier is 0.
    Zero { place: u64 },
    /// A number exceeds its greatest size, or its sixth byte says that it goes on.
    Width { place: u64 },
    /// A node lies deeper than 800 splits.
    TooDeep { place: u64 },
    /// A node stands after 1,000,000 others.
    TooMany { place: u64 },
    /// A byte stands after the end.
    Tail { place: u64 },
    /// A byte is none of those that may begin a claim or a node.
    Tag { place: u64 },
    /// Memory ran out.
    Memory,
}

impl From<Memory> for TreeError {
    ghost use Rattle.tree_format.specs.declared.errors.TreeError.TheVariants.{Memory};

    ghost from_gives = { λ _ e. e ≡ Memory };

    fn from(_error: Memory) -> TreeError {
        TreeError::Memory
    }
}

impl From<AllocError> for TreeError {
    ghost use Rattle.tree_format.specs.declared.errors.TreeError.TheVariants.{Memory};

    ghost from_gives = { λ _ e. e ≡ Memory };

    fn from(_error: AllocError) -> TreeError {
        TreeError::Memory
    }
}

impl<T: Drop> From<AllocFailed<T>> for TreeError {
    ghost use Rattle.tree_format.specs.declared.errors.TreeError.TheVariants.{Memory};

    ghost from_gives = { λ _ e. e ≡ Memory };

    fn from(_error: AllocFailed<T>) -> TreeError {
        TreeError::Memory
    }
}

impl fmt::Display for TreeError {
    fn fmt<W: fmt::Write>(&self, f: &mut fmt::Formatter<W>) -> fmt::Result {
        match self {
            TreeError::Magic { place } => write!(f, "F1 place {place}"),
            TreeError::Cut { place } => write!(f, "F2 place {place}"),
            TreeError::LongNumber { place } => write!(f, "F3 place {place}"),
            TreeError::Order { place } => write!(f, "F4 place {place}"),
            TreeError::Zero { place } => write!(f, "F5 place {place}"),
            TreeError::Width { place } => write!(f, "F6 place {place}"),
            TreeError::TooDeep { place } => write!(f, "F7 place {place}"),
            TreeError::TooMany { place } => write!(f, "F8 place {place}"),
            TreeError::Tail { place } => write!(f, "F9 place {place}"),
            TreeError::Tag { place } => write!(f, "F10 place {place}"),
            TreeError::Memory => write!(f, "out of memory"),
        }
    }
}

impl Error for TreeError {}
