//! Why a sample could not be made.

use ip_defs::Memory;
use std::alloc::{AllocError, AllocFailed};
use std::error::Error;
use std::fmt;

/// Why a sample could not be made.
#[derive(Clone, Copy, Debug, PartialEq, Eq)]
pub enum SampleError {
    /// Out of memory.
    Memory,
    /// The parts are not well shaped, or exceed a limit.
    NoModel,
}

impl fmt::Display for SampleError {
    fn fmt<W: fmt::Write>(&self, f: &mut fmt::Formatter<W>) -> fmt::Result {
        match self {
            SampleError::Memory => write!(f, "out of memory"),
            SampleError::NoModel => write!(f, "the parts are no model"),
        }
    }
}

impl Error for SampleError {}

impl From<AllocError> for SampleError {
    fn from(_error: AllocError) -> SampleError {
        SampleError::Memory
    }
}

impl From<Memory> for SampleError {
    fn from(_error: Memory) -> SampleError {
        SampleError::Memory
    }
}

impl<T: Drop> From<AllocFailed<T>> for SampleError {
    fn from(_error: AllocFailed<T>) -> SampleError {
        SampleError::Memory
    }
}
