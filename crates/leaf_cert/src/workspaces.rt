//! The workspace of leaf bounds.
use ip_defs::Area;

/// Memory for leaf bounds, so that they allocate none. A scratch fits every model with the same number of columns; its numbers between
/// calls do not matter.
#[derive(Debug, Drop)]
pub struct Scratch {
    /// A box, one pair for each column, which the walk through a tree cuts. A leaf bound neither reads nor changes it.
    pub area: Area,
    /// For each column the sum over the rows of multiplier times coefficient.
    pub(crate) taken: Vec<i128>,
}
