//! One living dual tableau for a whole search, which proposes the answers of nodes. Nothing of what it proposes is believed: a check
//! decides. So the contracts say that it is safe, ends within its limit, and gives lists of the right length, and no more.
//!
//! Each column has two sides, so the tableau of the rows with each column at the side that its cost favours is dual feasible. Dual
//! feasibility depends on costs and rows alone, never on the box: the last tableau of a node is a start for every other node.
#![tactic(auto)]

mod certificates;
mod dual_steps;
mod entering;
mod leaving;
mod moves;
mod pivots;
mod places;
mod points;
mod proposers;
mod quotients;
mod ranges;
mod tableau_rows;
mod tableaus;
mod ties;

pub use proposers::{Answer, Proposed, propose};
pub use slackness::{Numerators, Proposal};
pub use tableaus::{DualTableau, start};
