//! The questions file of a command, and the answer to its questions.

ghost use Rattle.std.specs.Prelude.{◌≡◌, ◌≢◌, ◌≤◌, ◌∷◌, [], IfOk, codes, length};
ghost use Rattle.ips_io.specs.Files.{Began};
ghost use Rattle.proof_tree.specs.Scratches.{FitsWalk};
ghost use Rattle.proof_tree.specs.Trees.{FitsModel, plain};
ghost use Rattle.proof_tree.specs.Verdicts.{HasLength};
ghost use Rattle.proof_tree.specs.Within.{IsTreeWithin};
ghost use Rattle.question_text.specs.QuestionFiles.{AreAskable, questions_of};
ghost use Rattle.ipsens_core.specs.Ask.{AnswersQuestions};
ghost use Rattle.ipsens_core.specs.Internal.Made.{answer_of, IsPrepared};
ghost use Rattle.ipsens_core.specs.Internal.QuestionFiles.{IsMadeFor};
ghost use Rattle.ipsens_core.specs.Questions.{OwedToText, ReadsQuestions, refuses_questions};

use crate::answers::{Made, Stop, says};
use crate::question_refusals::{QUESTIONS_TOO_LONG, question_line, text_fault_line};
use crate::statuses::Status;
use ip_defs::{Memory, Name};
use ip_model::IntModel;
use ips_io::{ReadError, Shelf, read_all};
use leaf_cert::Scratch;
use proof_tree::Proof;
use question_text::{Question, TextError, read_questions};
use sens_report::reply_text;
use std::alloc::Global;
use tree_replies::{QuestionError, replies_to};

/// The longest questions file, in bytes: 16 MiB.
const LONGEST_QUESTIONS: u64 = 16_777_216;

/// The answer to questions about a model: the first question that is refused, or a line for each.
fn answer_to_questions<'a>(
    alloc: Global,
    model: &IntModel,
    proof: &Proof,
    questions: &[Question],
    scratch: &mut Scratch,
) -> Result<Made<'a>, Memory>
    requires limits { IsTreeWithin (plain proof.now.tree) }
    requires fits { FitsModel model.now (plain proof.now.tree) }
    requires point { HasLength (length model.now.columns) proof.now.claim }
    requires askable { AreAskable questions.now }
    requires scratch { FitsWalk (length model.now.columns) scratch.old }
    ensures { IfOk result (IsMadeFor (AnswersQuestions model.now proof.now.claim (plain proof.now.tree) questions.now)) }
{
    match replies_to(alloc, model, proof, questions, scratch) {
        Ok(replies) => {
            let text = reply_text(alloc, replies.as_slice())?;
            Ok(says(Status::Answered, text))
        }
        Err(QuestionError::Refused { question, why }) => {
            let line = question_line(alloc, question, why)?;
            Ok(says(Status::Refused, line.into_bytes()))
        }
        Err(QuestionError::Memory) => Err(Memory),
    }
}

/// The answer to the text of a questions file: its first fault, or the answer to its questions.
fn answer_to_text<'a>(
    alloc: Global,
    model: &IntModel,
    proof: &Proof,
    text: &[u8],
    scratch: &mut Scratch,
) -> Result<Made<'a>, Memory>
    requires limits { IsTreeWithin (plain proof.now.tree) }
    requires fits { FitsModel model.now (plain proof.now.tree) }
    requires point { HasLength (length model.now.columns) proof.now.claim }
    requires length { length text.now ≤ 16777216 }
    requires scratch { FitsWalk (length model.now.columns) scratch.old }
    ensures { IfOk result (IsMadeFor (OwedToText (AnswersQuestions model.now proof.now.claim (plain proof.now.tree)) (questions_of
        text.now))) }
{
    match read_questions(alloc, text) {
        Ok(questions) => answer_to_questions(alloc, model, proof, questions.as_slice(), scratch),
        Err(TextError::Memory) => Err(Memory),
        Err(error) => {
            let line = text_fault_line(alloc, "questions", error)?;
            Ok(says(Status::Refused, line.into_bytes()))
        }
    }
}

/// The answer to a questions file that is too long.
fn too_long<'a>(alloc: Global) -> Result<Made<'a>, Memory>
    ensures { IfOk result (λ made. answer_of made ≡ refuses_questions (codes "too long")) }
{
    let text = String::from_str(alloc, QUESTIONS_TOO_LONG)?;
    Ok(says(Status::Refused, text.into_bytes()))
}

/// Reads the questions file of a name, and makes the answer to its questions about a model by a proof.
pub fn answered<'a, S: Shelf>(
    alloc: Global,
    model: &IntModel,
    proof: &Proof,
    name: &Name,
    scratch: &mut Scratch,
    shelf: &mut S,
) -> Result<Made<'a>, Stop>
    requires limits { IsTreeWithin (plain proof.now.tree) }
    requires fits { FitsModel model.now (plain proof.now.tree) }
    requires point { HasLength (length model.now.columns) proof.now.claim }
    requires scratch { FitsWalk (length model.now.columns) scratch.old }
    ensures prepared { IsPrepared (ReadsQuestions name.now (AnswersQuestions model.now proof.now.claim (plain proof.now.tree))) (S.files
        shelf.old) (S.files shelf.new) (S.faults shelf.old) (S.faults shelf.new) (S.save_faults shelf.old)
        (S.save_faults shelf.new) result }
    ensures names { Began (S.begun_names shelf.old) (S.begun_names shelf.new) (name.now ∷ []) }
{
    match read_all(alloc, shelf, name.as_str(), LONGEST_QUESTIONS) {
        Ok(text) => Ok(answer_to_text(alloc, model, proof, text.as_slice(), scratch)?),
        Err(ReadError::TooLong) => Ok(too_long(alloc)?),
        Err(ReadError::Fault) => Err(Stop::ReadFault),
        Err(ReadError::Memory) => Err(Stop::Memory),
    }
}
