//! How large a search may grow, and the limit at which it stopped.
/// How large the tree of a search may grow, and how long it works at a node.
#[derive(Clone, Copy, Debug, PartialEq, Eq)]
pub struct Limits {
    /// The most nodes, leaves and splits together.
    pub nodes: u32,
    /// The most splits above a node.
    pub depth: u32,
    /// The most steps of the linear program of a node.
    pub pivots: u32,
}

/// The limit at which a search stopped.
#[derive(Clone, Copy, Debug, PartialEq, Eq)]
pub enum BudgetWhat {
    Nodes,
    Depth,
}
