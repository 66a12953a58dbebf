//! Replies to questions about changed models, by the tree of a proof.

ghost use Rattle.std.specs.Prelude.{◌≡◌, ◌<◌, ◌^◌, None, IfOk, IfErr, length, option_map};
ghost use Rattle.perturbation.specs.Edits.{AreBelowLarge, edited_by};
ghost use Rattle.proof_tree.specs.Scratches.{FitsWalk};
ghost use Rattle.proof_tree.specs.Trees.{FitsModel, plain};
ghost use Rattle.proof_tree.specs.Verdicts.{HasLength};
ghost use Rattle.proof_tree.specs.Within.{IsTreeWithin};
ghost use Rattle.question_text.specs.QuestionFiles.{AreAskable, IsAskable, IsKeptBelow};
ghost use Rattle.tree_replies.specs.Refusals.{IsErrorOf, asked_of, edit_refusal, first_refusal, range_refusal, refusal_at};
ghost use Rattle.tree_replies.specs.Replies.{AreReplies, IsBoundReply, IsRangeReply, IsReply};

use crate::asked_ranges::asked_range;
use crate::refusals::{QuestionError, Refusal};
use ip_model::IntModel;
use leaf_cert::Scratch;
use perturbation::{Datum, Edit, EditError, apply, decimals_at};
use proof_tree::{Proof, Tree, tree_bound};
use question_text::{AimText, Question};
use range_finder::range;
use sens_report::Reply;
use std::alloc::Global;

/// The bound of a tree for a model with edits, or why question `number` is refused.
fn bound_reply(
    alloc: Global,
    model: &IntModel,
    tree: &Tree,
    number: usize,
    edits: &[Edit],
    scratch: &mut Scratch,
) -> Result<Reply, QuestionError>
    requires limits { IsTreeWithin (plain tree.now) }
    requires fits { FitsModel model.now (plain tree.now) }
    requires count { length edits.now < 2 ^ 32 }
    requires below { AreBelowLarge edits.now }
    requires scratch { FitsWalk (length model.now.columns) scratch.old }
    ensures reply { IfOk result (IsBoundReply model.now (plain tree.now) edits.now) }
    ensures refused { IfErr result (IsErrorOf (option_map (λ why. (number, why)) (edit_refusal (edited_by model.now edits.now)))) }
    ensures scratch { FitsWalk (length model.now.columns) scratch.new }
{
    match apply(alloc, model, edits) {
        Ok(edited) => Ok(Reply::Bound {
            bound: tree_bound(alloc, &edited, tree, scratch),
            decimals: edited.parts().cost_decimals,
        }),
        Err(EditError::Memory) => Err(QuestionError::Memory),
        Err(error) => Err(QuestionError::Refused {
            question: number,
            why: Refusal::Edit(error),
        }),
    }
}

/// The range of a datum for a proof, or why question `number` is refused.
fn range_reply(
    alloc: Global,
    model: &IntModel,
    proof: &Proof,
    number: usize,
    datum: &Datum,
    aim: AimText,
    scratch: &mut Scratch,
) -> Result<Reply, QuestionError>
    requires limits { IsTreeWithin (plain proof.now.tree) }
    requires fits { FitsModel model.now (plain proof.now.tree) }
    requires point { HasLength (length model.now.columns) proof.now.claim }
    requires below { IsKeptBelow aim }
    requires scratch { FitsWalk (length model.now.columns) scratch.old }
    ensures reply { IfOk result (IsRangeReply model.now proof.now.claim (plain proof.now.tree) datum.now aim) }
    ensures refused { IfErr result (IsErrorOf (option_map (λ why. (number, why)) (range_refusal (asked_of model.now proof.now.claim
        datum.now aim)))) }
    ensures scratch { FitsWalk (length model.now.columns) scratch.new }
{
    match asked_range(model, &proof.claim, datum, aim) {
        Ok((place, aim)) => Ok(Reply::Range {
            run: range(alloc, model, &proof.tree, place, aim, scratch),
            decimals: decimals_at(model.parts(), place),
        }),
        Err(why) => Err(QuestionError::Refused {
            question: number,
            why,
        }),
    }
}

/// The reply to question `number`, or why it is refused.
fn reply(
    alloc: Global,
    model: &IntModel,
    proof: &Proof,
    number: usize,
    question: &Question,
    scratch: &mut Scratch,
) -> Result<Reply, QuestionError>
    requires limits { IsTreeWithin (plain proof.now.tree) }
    requires fits { FitsModel model.now (plain proof.now.tree) }
    requires point { HasLength (length model.now.columns) proof.now.claim }
    requires askable { IsAskable question.now }
    requires scratch { FitsWalk (length model.now.columns) scratch.old }
    ensures reply { IfOk result (IsReply model.now proof.now.claim (plain proof.now.tree) question.now) }
    ensures refused { IfErr result (IsErrorOf (refusal_at model.now proof.now.claim number question.now)) }
    ensures scratch { FitsWalk (length model.now.columns) scratch.new }
{
    match question {
        Question::Ask(edits) => {
            bound_reply(alloc, model, &proof.tree, number, edits.as_slice(), scratch)
        }
        Question::Range { datum, aim } => {
            range_reply(alloc, model, proof, number, datum, *aim, scratch)
        }
    }
}

/// A reply to each question about a model, in order, by a proof: the bound of its tree for a changed model, or the range of a number for
/// its tree and its claim; or the first question that is refused. The tree may have been made for another model, but fits this one, as
/// the claimed point does; the scratch fits any model of as many columns. A question after a bound copies the model once and walks the
/// tree once; one after a range copies nothing and walks the tree for each change that is tried. `Memory` alone says nothing of the
/// questions.
pub fn replies_to(
    alloc: Global,
    model: &IntModel,
    proof: &Proof,
    questions: &[Question],
    scratch: &mut Scratch,
) -> Result<Vec<Reply>, QuestionError>
    requires limits { IsTreeWithin (plain proof.now.tree) }
    requires fits { FitsModel model.now (plain proof.now.tree) }
    requires point { HasLength (length model.now.columns) proof.now.claim }
    requires askable { AreAskable questions.now }
    requires scratch { FitsWalk (length model.now.columns) scratch.old }
    ensures replies { IfOk result (λ rs. AreReplies model.now proof.now.claim (plain proof.now.tree) questions.now rs.items) }
    ensures accepted { IfOk result (λ rs. first_refusal model.now proof.now.claim questions.now ≡ None) }
    ensures refused { IfErr result (IsErrorOf (first_refusal model.now proof.now.claim questions.now)) }
{
    let mut replies = Vec::new(alloc);
    for (k, question) in questions.iter().enumerate() {
        let reply = match reply(alloc, model, proof, k + 1, question, scratch) {
            Ok(reply) => reply,
            Err(error) => return Err(error),
        };
        match replies.push(reply) {
            Ok(()) => {}
            Err(_) => return Err(QuestionError::Memory),
        }
    }
    Ok(replies)
}
