//! The command `ask`: a model file is read, then a tree file, whose proof is judged, then a questions file; the questions are answered by
//! the bound of the tree for each changed model, and by the ranges of numbers for it.

ghost use Rattle.std.specs.Prelude.{◌≡◌, ◌∷◌, [], IfOk, None};
ghost use Rattle.ips_io.specs.Files.{BeganFirst};
ghost use Rattle.tree_checker.specs.Streams.{first_misfit};
ghost use Rattle.ipsens_core.specs.Answers.{says as answer_that_says};
ghost use Rattle.ipsens_core.specs.Ask.{AnswersAsk, AsksVerdict};
ghost use Rattle.sens_report.specs.VerdictTexts.{verdict_line};
ghost use Rattle.ipsens_core.specs.Internal.Made.{answer_of, IsPrepared};
ghost use Rattle.proof_tree.specs.Trees.{plain, tree_bound};
ghost use Rattle.proof_tree.specs.Verdicts.{judged};
ghost use Rattle.proof_tree.specs.Within.{IsTreeWithin};

use crate::answers::{Made, Stop, says};
use crate::check::{refused, too_long};
use crate::proof_files::read_proof;
use crate::question_files::answered;
use crate::statuses::Status;
use ip_defs::{Memory, Name};
use ip_model::IntModel;
use ips_io::{ReadError, Shelf};
use leaf_cert::scratch;
use proof_tree::Proof;
use sens_report::check_text;
use std::alloc::Global;
use tree_checker::{Verdict, check};

/// The answer to a proof that is not proved.
fn not_proved<'a>(alloc: Global, model: &IntModel, verdict: &Verdict) -> Result<Made<'a>, Memory>
    ensures { IfOk result (λ made. answer_of made ≡ answer_that_says Status.NotProved (verdict_line model.now verdict.now)) }
{
    let text = check_text(alloc, model, verdict)?;
    Ok(says(Status::NotProved, text))
}

/// Judges a proof that fits the model. Where it is proved, reads the questions file and makes the answer to its questions.
fn asked_of_proof<'a, S: Shelf>(
    alloc: Global,
    model: &IntModel,
    proof: &Proof,
    questions: &Name,
    shelf: &mut S,
) -> Result<Made<'a>, Stop>
    requires limits { IsTreeWithin (plain proof.now.tree) }
    requires fits { first_misfit model.now proof.now.claim (plain proof.now.tree) ≡ None }
    ensures prepared { IsPrepared (AsksVerdict questions.now model.now proof.now.claim (plain proof.now.tree) (judged model.now
        proof.now.claim (tree_bound model.now (plain proof.now.tree)))) (S.files shelf.old) (S.files shelf.new) (S.faults shelf.old)
        (S.faults shelf.new) (S.save_faults shelf.old) (S.save_faults shelf.new) result }
    ensures names { BeganFirst (S.begun_names shelf.old) (S.begun_names shelf.new) (questions.now ∷ []) }
{
    let mut scratch = scratch(alloc, model)?;
    match check(alloc, model, proof, &mut scratch) {
        Verdict::Proved { .. } => answered(alloc, model, proof, questions, &mut scratch, shelf),
        verdict => Ok(not_proved(alloc, model, &verdict)?),
    }
}

/// Reads the tree file for a model, judges its proof, and where that is proved reads the questions file and makes the answer.
pub fn asked<'a, S: Shelf>(
    alloc: Global,
    model: &IntModel,
    tree: &Name,
    questions: &Name,
    shelf: &mut S,
) -> Result<Made<'a>, Stop>
    ensures prepared { IsPrepared (AnswersAsk tree.now questions.now model.now) (S.files shelf.old) (S.files shelf.new) (S.faults shelf.old)
        (S.faults shelf.new) (S.save_faults shelf.old) (S.save_faults shelf.new) result }
    ensures names { BeganFirst (S.begun_names shelf.old) (S.begun_names shelf.new) (tree.now ∷ questions.now ∷ []) }
{
    match read_proof(alloc, model, tree, shelf) {
        Ok(Ok(proof)) => asked_of_proof(alloc, model, &proof, questions, shelf),
        Ok(Err(error)) => Ok(refused(alloc, error)?),
        Err(ReadError::TooLong) => Ok(too_long(alloc)?),
        Err(ReadError::Fault) => Err(Stop::ReadFault),
        Err(ReadError::Memory) => Err(Stop::Memory),
    }
}
