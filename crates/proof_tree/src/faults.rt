//! What may be wrong with a tree: the limits that it exceeds, and the places where it does not fit a model.

/// The first limit that a tree exceeds. Nodes are numbered in preorder from 0.
#[derive(Clone, Copy, Debug, PartialEq, Eq)]
pub enum TreeLimit {
    /// A node lies deeper than 800 splits.
    Depth,
    /// There are more than 1,000,000 nodes.
    Nodes,
    /// The column of a split is above 4,095, or the absolute value of its cut above 2^24.
    At { node: u32 },
    /// The certificate of a leaf is out of order or exceeds a limit.
    Cert { node: u32 },
}

/// The part of a proof that does not fit a model.
#[derive(Clone, Copy, Debug, PartialEq, Eq)]
pub enum ShapeWhat {
    /// The claimed point has another number of coordinates than the model has columns.
    PointLength,
    /// A split names a column that the model does not have.
    ColumnNumber,
    /// A certificate names a row that the model does not have.
    RowNumber,
}

/// Where a proof does not fit a model: at a node in preorder, or at node 0 for the point.
#[derive(Clone, Copy, Debug, PartialEq, Eq)]
pub struct Shape {
    pub node: u32,
    pub what: ShapeWhat,
}
