//! What may be proposed for a node.
use ip_defs::{Cert, Listed};

/// The numerators of a point, one for each column.
pub type Numerators = Listed<i128>;

/// A proposal for a node: a point as numerators over one denominator, and a certificate. Nothing is known of it before it is checked.
#[derive(Debug, Drop)]
pub struct Proposal {
    pub numerators: Numerators,
    pub denominator: i128,
    pub cert: Cert,
}
