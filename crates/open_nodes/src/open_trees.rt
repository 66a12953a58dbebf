//! Trees that are still being grown.
use crate::Why;
use ip_defs::Cert;

/// A tree that is still being grown: a proof tree with the reasons of its splits, and with nodes that are open.
#[derive(Debug, Drop)]
pub enum OpenTree {
    /// The node was not visited.
    Pending,
    /// The node has to be split, for this reason, and may not be.
    Stuck(Why),
    /// The node is closed by a certificate.
    Leaf(Cert),
    /// The left side keeps the points whose number at column `col` is at most `at`, the right side the others.
    Split {
        col: u32,
        at: i64,
        why: Why,
        left: Box<OpenTree>,
        right: Box<OpenTree>,
    },
}
