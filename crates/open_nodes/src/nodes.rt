//! The nodes of an open tree: where each came from, and what is known of it.
use crate::Why;
use ip_defs::Cert;

/// The half of a box at a cut of a column.
#[derive(Clone, Copy, Debug, PartialEq, Eq)]
pub enum Cut {
    /// The points whose number at the column is at most `at`.
    Below { col: u32, at: i64 },
    /// The points whose number at the column is more than `at`.
    Above { col: u32, at: i64 },
}

/// How a node was made: the key of its parent, and which half of the parent's box it has.
#[derive(Clone, Copy, Debug, PartialEq, Eq)]
pub struct Edge {
    pub parent: usize,
    pub cut: Cut,
}

/// What a node keeps of its linear program while it waits: the split that it asks for, and why.
#[derive(Debug, Drop)]
pub struct Solved {
    pub col: u32,
    pub at: i64,
    pub why: Why,
}

/// What is known of a node.
#[derive(Debug, Drop)]
pub enum State {
    /// It waits to be taken, with a lower bound on the costs in its box. Where its linear program was solved, it keeps the answer.
    Waiting {
        bound: i128,
        solved: Option<Solved>,
    },
    /// It was taken and is being worked on.
    Taken,
    /// A certificate closes it.
    Closed(Cert),
    /// It has to be split, for this reason, and may not be.
    Stuck(Why),
    /// It is split: the left child keeps the points whose number at column `col` is at most `at`, the right child the others.
    Split {
        col: u32,
        at: i64,
        why: Why,
        left: usize,
        right: usize,
    },
}

/// A node: how it was made, which the root alone lacks, how many splits are above it, and what is known of it.
#[derive(Debug, Drop)]
pub struct Node {
    pub edge: Option<Edge>,
    pub depth: u32,
    pub state: State,
}
