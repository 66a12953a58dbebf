//! What a proof replies to questions about changed models, without solving again: a reply to each question, or the first question that is
//! refused.
#![tactic(auto)]

mod asked_ranges;
mod refusals;
mod replies;

pub use perturbation::EditError;
pub use question_text::Question;
pub use refusals::{QuestionError, Refusal};
pub use replies::replies_to;
pub use sens_report::Reply;
