//! Proof trees.
use ip_defs::Cert;

/// A branch-and-bound tree with a certificate at each leaf. The left half of a split keeps the points with `x_col <= at`, the right half
/// those with `x_col >= at + 1`.
#[derive(Debug, Drop)]
pub enum Tree {
    Leaf(Cert),
    Split {
        col: u32,
        at: i64,
        left: Box<Tree>,
        right: Box<Tree>,
    },
}
