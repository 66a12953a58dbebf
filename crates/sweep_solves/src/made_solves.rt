//! Finished solves of a sweep.

use branching::Whys;
use ip_defs::Listed;
use proof_tree::Proof;

/// A finished solve of a model at the parameter p/q.
#[derive(Debug, Drop)]
pub struct Made {
    pub p: i128,
    pub q: i128,
    pub proof: Proof,
    pub reasons: Whys,
}

/// Finished solves of one sweep, in the order in which they were made.
pub type Mades = Listed<Made>;
