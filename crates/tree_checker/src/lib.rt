//! The verdict on a proof: whether its claim is proved by its tree, for a model that need not be the one it was made for; of a proof as a
//! whole, or from its file piece by piece.
#![tactic(auto)]

mod blanks;
mod cuts;
mod descents;
mod stocks;
mod streams;
mod verdicts;
mod walks;
mod workspaces;

pub use ip_defs::{Bound, Breach};
pub use proof_tree::{Claim, Proof, Shape, ShapeWhat, Verdict};
pub use streams::{StreamCheck, StreamError, stream};
pub use tree_format::TreeError;
pub use verdicts::{check, judge};
