//! The command `recheck`: a model file is read, then a sweep file, then the proof of a sweep, which is judged by the rules.

ghost use Rattle.std.specs.Prelude.{◌≡◌, ◌∷◌, [], IfOk};
ghost use Rattle.ips_io.specs.Files.{BeganFirst};
ghost use Rattle.sweep_directions.specs.Directions.{IsDirection};
ghost use Rattle.sweep_proof.specs.RowRules.{row_rules};
ghost use Rattle.sweep_proof.specs.RowSweeps.{FitsPieces};
ghost use Rattle.ipsens_core.specs.Internal.Made.{answer_of, IsPrepared};
ghost use Rattle.ipsens_core.specs.Recheck.{AnswersRecheck, IsRechecked, sweep_verdict_answer};
ghost use Rattle.ipsens_core.specs.Recheck.{sweep_verdict_status as status_of_verdict};
ghost use Rattle.ipsens_core.specs.SweepProofFiles.{ReadsRows};

use crate::answers::{Made, Stop, says};
use crate::files::without;
use crate::statuses::Status;
use crate::sweep_files::{Course, read_course};
use crate::sweep_proof_files::read_rows;
use ip_defs::{Memory, Name};
use ip_model::IntModel;
use ips_io::Shelf;
use leaf_cert::scratch;
use sens_report::recheck_text;
use std::alloc::Global;
use sweep_proof::{RowSweep, SweepVerdict, check_row_sweep};

/// The status of a verdict on the proof of a sweep.
fn verdict_status(verdict: &SweepVerdict) -> Status
    ensures { result ≡ status_of_verdict verdict.now }
{
    match verdict {
        SweepVerdict::Proved => Status::Answered,
        _ => Status::NotProved,
    }
}

/// The answer to the proof of a sweep that fits the model: the verdict of the rules on it for the course.
fn judged<'a>(
    alloc: Global,
    model: &IntModel,
    course: &Course,
    sweep: &RowSweep,
) -> Result<Made<'a>, Memory>
    requires fits { FitsPieces model.now sweep.now.pieces }
    requires direction { IsDirection model.now course.now.steps course.now.dir }
    ensures { IfOk result (λ made. answer_of made ≡ sweep_verdict_answer model.now (row_rules model.now course.now.dir course.now.steps
        sweep.now.pieces)) }
{
    let mut scratch = scratch(alloc, model)?;
    let dir = course.dir.as_slice();
    let verdict = check_row_sweep(alloc, model, dir, course.steps, sweep, &mut scratch)?;
    let text = recheck_text(alloc, model, &verdict)?;
    Ok(says(verdict_status(&verdict), text))
}

/// Reads the proof of a sweep for a model and a course, and makes the answer to it.
fn rechecked_along<'a, S: Shelf>(
    alloc: Global,
    model: &IntModel,
    course: &Course,
    proof: &Name,
    shelf: &mut S,
) -> Result<Made<'a>, Stop>
    requires direction { IsDirection model.now course.now.steps course.now.dir }
    ensures prepared { IsPrepared (ReadsRows proof.now model.now (IsRechecked model.now course.now.dir course.now.steps)) (S.files
        shelf.old) (S.files shelf.new) (S.faults shelf.old) (S.faults shelf.new) (S.save_faults shelf.old)
        (S.save_faults shelf.new) result }
    ensures names { BeganFirst (S.begun_names shelf.old) (S.begun_names shelf.new) (proof.now ∷ []) }
{
    match read_rows(alloc, model, proof, shelf) {
        Ok(sweep) => Ok(judged(alloc, model, course, &sweep)?),
        Err(unread) => without(unread),
    }
}

/// Reads the sweep file for a model, tries its directions, then reads the proof of a sweep, and makes the answer to it.
pub fn rechecked<'a, S: Shelf>(
    alloc: Global,
    model: &IntModel,
    sweep: &Name,
    proof: &Name,
    shelf: &mut S,
) -> Result<Made<'a>, Stop>
    ensures prepared { IsPrepared (AnswersRecheck sweep.now proof.now model.now) (S.files shelf.old) (S.files shelf.new) (S.faults
        shelf.old) (S.faults shelf.new) (S.save_faults shelf.old) (S.save_faults shelf.new) result }
    ensures names { BeganFirst (S.begun_names shelf.old) (S.begun_names shelf.new) (sweep.now ∷ proof.now ∷ []) }
{
    match read_course(alloc, model, sweep, shelf) {
        Ok(course) => rechecked_along(alloc, model, &course, proof, shelf),
        Err(unread) => without(unread),
    }
}
