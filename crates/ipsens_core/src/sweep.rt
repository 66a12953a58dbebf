//! The command `sweep`: a model file is read, then a sweep file, and the model is solved along the steps of the sweep; the proof of a
//! finished sweep may be saved.

ghost use Rattle.std.specs.Prelude.{◌≡◌, ◌≢◌, ◌<◌, ◌≤◌, ◌∷◌, [], IfErr, IfOk, map, None, option_map};
ghost use Rattle.ip_model.specs.Sizes.{allowance as most_nodes_of, first_crossed};
ghost use Rattle.ips_io.specs.Files.{BeganFirst};
ghost use Rattle.ips_words.specs.Requests.{AreLimits};
ghost use Rattle.rhs_sweep.specs.RowStops.{AreAmpleFor, IsRowStop};
ghost use Rattle.rhs_sweep.specs.declared.stops.RowStop.TheVariants as Stops;
ghost use Rattle.sens_report.specs.StopTexts.{IsStopWithin, row_stop_lines};
ghost use Rattle.sweep_directions.specs.Directions.{IsDirection};
ghost use Rattle.sweep_proof.specs.RowRules.{row_rules};
ghost use Rattle.sweep_proof.specs.RowSweeps.{FitsPieces, IsExactRowSweep};
ghost use Rattle.sweep_proof.specs.declared.verdicts.SweepVerdict.TheVariants as Ends;
ghost use Rattle.tree_format.specs.RowSpellings.{AreRowsWithin, plain_piece};
ghost use Rattle.ipsens_core.specs.Answers.{says as answer_that_says};
ghost use Rattle.ipsens_core.specs.Internal.Made.{answer_of, file_saved, IsPrepared};
ghost use Rattle.ipsens_core.specs.Internal.QuestionFiles.{IsMadeFor};
ghost use Rattle.ipsens_core.specs.Solve.{limits_for};
ghost use Rattle.ipsens_core.specs.Sweep.{AnswersSweep, IsSwept, rows_saved, sweep_answer};

use crate::answers::{Made, Saved, Stop, says};
use crate::files::without;
use crate::statuses::Status;
use crate::sweep_files::{Course, read_course};
use branching::{Limits, Steps};
use ip_defs::{Memory, Name};
use ip_model::{IntModel, allowance};
use ips_io::Shelf;
use rhs_sweep::{RowStop, RowSweep, sweep_rows};
use sens_report::{row_stop_text, row_sweep_text};
use std::alloc::Global;
use std::marker::Brand;
use std::sync::ledger::{Blank, Ledger};
use tree_format::encode_rows;

/// Solves a model along the steps of a course, with a counter of steps that stands at 0.
fn searched<L: Ledger>(
    alloc: Global,
    model: &IntModel,
    course: &Course,
    limits: Limits,
    blank: Blank,
) -> Result<RowSweep, RowStop>
    requires blank { (blank.name ≡ L.name) × (blank.parts ≡ L.parts) × (0 < L.parts) }
    requires limits { (1 ≤ limits.nodes) × (limits.nodes ≤ most_nodes_of model.now 1000000) × (limits.depth ≤ 800) }
    requires uncrossed { first_crossed model.now ≡ None }
    requires direction { IsDirection model.now course.now.steps course.now.dir }
    requires few { course.now.steps ≤ 1000000 }
    ensures exact { IfOk result (λ s. IsExactRowSweep model.now course.now.dir course.now.steps s.pieces) }
    ensures proved { IfOk result (λ s. row_rules model.now course.now.dir course.now.steps s.pieces ≡ Ends.Proved) }
    ensures fits { IfOk result (λ s. FitsPieces model.now s.pieces) }
    ensures stop { IfErr result (IsRowStop model.now course.now.dir course.now.steps limits) }
    ensures ends { AreAmpleFor model.now course.now.steps limits → IfErr result (λ stop. stop ≡ Stops.Memory) }
{
    let mut steps = Steps::<L>::new(blank);
    sweep_rows(
        alloc,
        model,
        course.dir.as_slice(),
        course.steps,
        limits,
        &mut steps,
    )
}

/// The file of a sweep, where a name is given.
fn saved_of<'a>(
    alloc: Global,
    proof: &'a Option<Name>,
    sweep: &RowSweep,
) -> Result<Option<Saved<'a>>, Memory>
    requires { AreRowsWithin (map plain_piece sweep.now.pieces) }
    ensures { IfOk result (λ file. option_map file_saved file ≡ rows_saved proof.now sweep.now.pieces) }
{
    match proof {
        Some(name) => {
            let bytes = encode_rows(alloc, sweep)?;
            Ok(Some(Saved { name, bytes }))
        }
        None => Ok(None),
    }
}

/// The answer to a finished sweep: a line for each piece, and the file of its proof.
fn answer_to_sweep<'a>(
    alloc: Global,
    model: &IntModel,
    sweep: &RowSweep,
    proof: &'a Option<Name>,
) -> Result<Made<'a>, Memory>
    requires fits { FitsPieces model.now sweep.now.pieces }
    requires within { AreRowsWithin (map plain_piece sweep.now.pieces) }
    ensures { IfOk result (λ made. answer_of made ≡ sweep_answer model.now proof.now sweep.now.pieces) }
{
    let text = row_sweep_text(alloc, model, sweep)?;
    let saved = saved_of(alloc, proof, sweep)?;
    Ok(Made {
        status: Status::Answered,
        text,
        saved,
    })
}

/// The answer to a sweep that stopped.
fn answer_to_stop<'a>(alloc: Global, model: &IntModel, stop: &RowStop) -> Result<Made<'a>, Memory>
    requires { IsStopWithin stop.now }
    ensures answer { IfOk result (λ made. answer_of made ≡ answer_that_says Status.Budget (row_stop_lines stop.now)) }
    ensures named { IfOk result (λ made. stop.now ≢ Stops.Memory) }
{
    match stop {
        RowStop::Memory => return Err(Memory),
        RowStop::Budget { .. } | RowStop::Solves { .. } => {}
    }
    let text = row_stop_text(alloc, model, stop)?;
    Ok(says(Status::Budget, text))
}

/// Sweeps a model along a course within the limits that were asked for, and makes the answer.
fn swept_along<'a>(
    alloc: Global,
    model: &IntModel,
    course: &Course,
    asked: Limits,
    proof: &'a Option<Name>,
) -> Result<Made<'a>, Memory>
    requires limits { AreLimits asked.nodes asked.depth asked.pivots }
    requires uncrossed { first_crossed model.now ≡ None }
    requires direction { IsDirection model.now course.now.steps course.now.dir }
    requires few { course.now.steps ≤ 1000000 }
    ensures { IfOk result (IsMadeFor (IsSwept model.now course.now.dir course.now.steps (limits_for model.now asked.nodes asked.depth
        asked.pivots) proof.now)) }
{
    let parts = model.parts();
    let limits = Limits {
        nodes: allowance(model, asked.nodes),
        ..asked
    };
    match searched::<Brand>(alloc, model, course, limits, Blank::new(1)) {
        Ok(sweep) => answer_to_sweep(alloc, model, &sweep, proof),
        Err(stop) => answer_to_stop(alloc, model, &stop),
    }
}

/// Reads the sweep file for a model, tries its directions, sweeps the model, and makes the answer.
pub fn swept<'a, S: Shelf>(
    alloc: Global,
    model: &IntModel,
    sweep: &Name,
    asked: Limits,
    proof: &'a Option<Name>,
    shelf: &mut S,
) -> Result<Made<'a>, Stop>
    requires limits { AreLimits asked.nodes asked.depth asked.pivots }
    requires uncrossed { first_crossed model.now ≡ None }
    ensures prepared { IsPrepared (AnswersSweep sweep.now proof.now asked.nodes asked.depth asked.pivots model.now) (S.files shelf.old)
        (S.files shelf.new) (S.faults shelf.old) (S.faults shelf.new) (S.save_faults shelf.old) (S.save_faults shelf.new) result }
    ensures names { BeganFirst (S.begun_names shelf.old) (S.begun_names shelf.new) (sweep.now ∷ []) }
{
    match read_course(alloc, model, sweep, shelf) {
        Ok(course) => Ok(swept_along(alloc, model, &course, asked, proof)?),
        Err(unread) => without(unread),
    }
}
