//! Printed answers: the texts of how a search ended, of the verdict on a proof, of the replies to questions, and of row sweeps, how they
//! stop, and the verdicts on their proofs.
#![tactic(auto)]

mod amount_texts;
mod outcome_texts;
mod point_texts;
mod replies;
mod stop_texts;
mod sweep_texts;
mod sweep_verdict_texts;
mod verdict_texts;

pub use ip_defs::{Bound, Memory};
pub use outcome_texts::solve_text;
pub use replies::{Reply, reply_text};
pub use stop_texts::row_stop_text;
pub use sweep_texts::row_sweep_text;
pub use sweep_verdict_texts::recheck_text;
pub use verdict_texts::check_text;
