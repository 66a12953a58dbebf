//! Runs of steps with one value.

/// A run of steps with one value: the numbers of the solves at its first and at its last step, in a list of solves. They may be the same.
#[derive(Clone, Copy, Debug, PartialEq, Eq)]
pub struct Run {
    pub first: usize,
    pub last: usize,
}
