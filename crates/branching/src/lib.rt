//! Branch and bound: a search for a least point that makes the tree which proves its answer.
#![tactic(auto)]

mod budgets;
mod counts;
mod finished_trees;
mod found_points;
mod laws;
mod outcomes;
mod rounds;
mod search;

pub use budgets::{BudgetWhat, Limits};
pub use counts::{node_count, skipped_count};
pub use laws::{outcomes_are_true, searches_end, trees_are_small};
pub use node_bounds::{Numerators, Proposal, Proposed, Proposer, Task, Why, Whys};
pub use open_nodes::OpenTree;
pub use outcomes::Outcome;
pub use proof_tree::{Cert, Claim, Point, Proof, Tree};
pub use search::{solve, solve_with};
pub use simplex_exact::{Fracs, Steps};
