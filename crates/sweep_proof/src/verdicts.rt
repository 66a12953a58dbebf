//! Verdicts on the proofs of sweeps.

use ip_defs::{Bound, Breach as BreachAt};

/// The result of checking the proof of a sweep. Pieces are numbered from 0.
#[derive(Clone, Copy, Debug, PartialEq, Eq)]
pub enum SweepVerdict {
    /// Each claim is proved, and the pieces cover the sweep.
    Proved,
    /// The piece does not cover its part of the sweep, or claims emptiness where it may not; or a cost of the model at the break after
    /// it, or at the first break, exceeds its limit.
    Cover {
        piece: u32,
    },
    /// The point of the piece is not feasible where the piece begins: it violates a column or a row.
    Breach {
        piece: u32,
        place: BreachAt,
    },
    /// In a row sweep, the value of the piece is not below that of the piece before it; in a cost sweep, its slope is not above that of
    /// the next piece. `left` is that of the first of the two, `right` that of the second.
    Fall {
        piece: u32,
        left: i128,
        right: i128,
    },
    /// The points at both sides of the break after the piece do not cost the same there: `left` is the cost of its point, `right` that
    /// of the next.
    Meet {
        piece: u32,
        left: i128,
        right: i128,
    },
    /// The bound of the tree is below the claimed cost of the piece; a claim of None is that of emptiness.
    Short {
        piece: u32,
        bound: Bound,
        claim: Option<i128>,
    },
}
