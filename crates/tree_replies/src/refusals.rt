//! Why questions are refused.

use perturbation::EditError;

/// Why a question is refused.
#[derive(Clone, Copy, Debug, PartialEq, Eq)]
pub enum Refusal {
    /// An edit of the question is refused. The datum and the number of a range count as edit 0.
    Edit(EditError),
    /// The question asks how far the best point stays the best one, and the proof claims that no point is feasible.
    NoBest,
}

/// Why a list of questions has no replies.
#[derive(Clone, Copy, Debug, PartialEq, Eq)]
pub enum QuestionError {
    /// A question is refused, the first that is. `question` is its number in the list, counted from 1.
    Refused { question: usize, why: Refusal },
    /// Out of memory; nothing is said of the questions.
    Memory,
}
