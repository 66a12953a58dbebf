//! The command `check`: a tree file is read and judged for a model, piece by piece, and the verdict is printed.

ghost use Rattle.std.specs.Prelude.{◌≡◌, ◌∷◌, [], IfOk, codes};
ghost use Rattle.ips_io.specs.Files.{BeganFirst};
ghost use Rattle.ipsens_core.specs.Check.{AnswersCheck, verdict_status as status_of_verdict};
ghost use Rattle.ipsens_core.specs.Internal.TreeFiles.{answer_to_tree, refuses_proof};
ghost use Rattle.ipsens_core.specs.Internal.Made.{answer_of, IsPrepared};
ghost use Rattle.ipsens_core.specs.Trees.{refuses_tree};

use crate::answers::{Made, Stop, says};
use crate::statuses::Status;
use crate::tree_refusals::{TREE_TOO_LONG, fault_line, misfit_line};
use crate::trees::judge_file;
use ip_defs::{Memory, Name};
use ip_model::IntModel;
use ips_io::{ReadError, Shelf};
use sens_report::check_text;
use std::alloc::Global;
use tree_checker::{StreamError, Verdict};

/// The status of a verdict.
fn verdict_status(verdict: Verdict) -> Status
    ensures { result ≡ status_of_verdict verdict }
{
    match verdict {
        Verdict::Proved { .. } => Status::Answered,
        Verdict::NotFeasible(_) | Verdict::Short { .. } => Status::NotProved,
    }
}

/// The answer to a tree file that spells no proof, or none that fits the model.
pub fn refused<'a>(alloc: Global, error: StreamError) -> Result<Made<'a>, Memory>
    ensures { IfOk result (λ made. answer_of made ≡ refuses_proof error) }
{
    match error {
        StreamError::Tree(fault) => {
            let line = fault_line(alloc, "tree", fault)?;
            Ok(says(Status::Refused, line.into_bytes()))
        }
        StreamError::Shape(shape) => {
            let line = misfit_line(alloc, shape)?;
            Ok(says(Status::Refused, line.into_bytes()))
        }
    }
}

/// The answer to the bytes of a tree file: its verdict, or its refusal.
fn answer_to<'a>(
    alloc: Global,
    model: &IntModel,
    judged: Result<Verdict, StreamError>,
) -> Result<Made<'a>, Memory>
    ensures { IfOk result (λ made. answer_of made ≡ answer_to_tree model.now judged) }
{
    match judged {
        Ok(verdict) => {
            let text = check_text(alloc, model, &verdict)?;
            Ok(says(verdict_status(verdict), text))
        }
        Err(error) => refused(alloc, error),
    }
}

/// The answer to a tree file that is too long.
pub fn too_long<'a>(alloc: Global) -> Result<Made<'a>, Memory>
    ensures { IfOk result (λ made. answer_of made ≡ refuses_tree (codes "too long")) }
{
    let text = String::from_str(alloc, TREE_TOO_LONG)?;
    Ok(says(Status::Refused, text.into_bytes()))
}

/// Reads and judges the tree file for a model, and makes the answer.
pub fn checked<'a, S: Shelf>(
    alloc: Global,
    model: &IntModel,
    tree: &Name,
    shelf: &mut S,
) -> Result<Made<'a>, Stop>
    ensures prepared { IsPrepared (AnswersCheck tree.now model.now) (S.files shelf.old) (S.files shelf.new) (S.faults shelf.old)
        (S.faults shelf.new) (S.save_faults shelf.old) (S.save_faults shelf.new) result }
    ensures names { BeganFirst (S.begun_names shelf.old) (S.begun_names shelf.new) (tree.now ∷ []) }
{
    match judge_file(alloc, model, tree, shelf) {
        Ok(judged) => Ok(answer_to(alloc, model, judged)?),
        Err(ReadError::TooLong) => Ok(too_long(alloc)?),
        Err(ReadError::Fault) => Err(Stop::ReadFault),
        Err(ReadError::Memory) => Err(Stop::Memory),
    }
}
