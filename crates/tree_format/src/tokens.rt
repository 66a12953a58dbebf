//! The parts of a proof as its bytes give them.

/// What a byte gives: the part that it completes, or nothing yet. The parts come in the order of the file.
#[derive(Clone, Copy, Debug, PartialEq, Eq)]
pub enum Token {
    /// The byte completes no part.
    Nothing,
    /// The byte of the claim, of a point or of emptiness.
    Claimed,
    /// The next coordinate of the claimed point.
    Coordinate(i64),
    /// A split: its left side, then its right side follow.
    SplitAt { col: u32, at: i64 },
    /// A leaf: the divisor of its certificate.
    LeafQ(i64),
    /// How many multipliers the certificate has; with 0 it is whole.
    Parts(u32),
    /// The next multiplier of the certificate.
    Part { row: u32, multiplier: i64 },
}
