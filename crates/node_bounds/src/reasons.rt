//! Why nodes are split.
use ip_defs::{Cert, Listed};
use simplex_exact::Fracs;

/// Why a node was split, or has to be.
#[derive(Debug, Drop)]
pub enum Why {
    /// A point of the relaxation, one number for each column, has a fraction at the split column, and its floor is the cut. Its cost is
    /// just what the certificate bounds by.
    Fractional { point: Fracs, cert: Cert },
    /// The linear program of the node did not end within its steps. The split is at the middle of the widest column, rounded down; of
    /// columns that are as wide, the first.
    Stopped,
    /// A number of the linear program, or of its certificate, is too wide. The split is as for `Stopped`.
    Wide,
}

/// The reasons of the splits of a tree, in preorder.
pub type Whys = Listed<Why>;
