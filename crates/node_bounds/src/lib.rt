//! One node of a branch-and-bound tree: its box is closed by a certificate, or a whole point is a least one of it, or it is split for a
//! reason. Nothing is known here of a search, but the cost at which it cuts.
#![tactic(auto)]

mod boxes;
mod choosers;
mod leaves;
mod nodes;
mod proposals;
mod reasons;
mod relaxations;
mod tasks;
mod workspaces;

pub use choosers::Chooser;
pub use dual_proposals::{DualTableau, Numerators, Proposal, Proposed, start};
pub use nodes::{Branch, Node, box_bound, split_or_close, visit};
pub use proposals::Proposer;
pub use reasons::{Why, Whys};
pub use simplex_exact::Fracs;
pub use tasks::Task;
pub use workspaces::Workspace;
