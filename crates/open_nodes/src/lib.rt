//! The open tree of a search while it grows: its nodes in one slab, and the order of those that wait, the least bound first.
#![tactic(auto)]

mod assembled;
mod frontiers;
mod nodes;
mod open_trees;

pub use frontiers::{Frontier, Taken};
pub use node_bounds::Why;
pub use nodes::{Cut, Edge, Node, Solved, State};
pub use open_trees::OpenTree;
