//! The commands: each reads its model file first, makes its answer to the model, and then the answer is saved and written.

ghost use Rattle.std.specs.Prelude.{◌≡◌, None, Some, codes};
ghost use Rattle.ip_model.specs.Sizes.{first_crossed};
ghost use Rattle.ips_io.specs.Files.{BeganFirst};
ghost use Rattle.ipsens_core.specs.Accepted.{AsksAccepted, IsAnsweredUnless};
ghost use Rattle.ipsens_core.specs.Internal.Made.{IsPrepared};
ghost use Rattle.ipsens_core.specs.Runs.{AnswersModel, AnswersRequest, HasBegun, IsReady, MeetsRequest, files_after, files_named};
ghost use Rattle.ipsens_core.specs.Runs.{command_word, model_file as file_of_model, shows};

use crate::answers::{Made, Stop, send};
use crate::ask::asked;
use crate::check::checked;
use crate::files::without;
use crate::models::read_model;
use crate::recheck::rechecked;
use crate::show::shown;
use crate::solve::solved;
use crate::statuses::Status;
use crate::sweep::swept;
use branching::Limits;
use ip_defs::Name;
use ip_model::IntModel;
use ips_io::{Shelf, Sink};
use ips_words::Request;
use mps_defs::How;
use std::alloc::Global;

/// A model file: its name, and how its text is to be read.
#[derive(Clone, Copy, Debug)]
pub struct ModelFile<'a> {
    pub name: &'a Name,
    pub how: How,
}

/// The model file of a request.
fn model_file(request: &Request) -> ModelFile<'_>
    requires { IsReady request.now }
    ensures { file_of_model request.now ≡ Some (result.name.now, result.how) }
{
    match request {
        Request::Solve {
            model,
            digits,
            box_side,
            ..
        }
        | Request::Check {
            model,
            digits,
            box_side,
            ..
        }
        | Request::Ask {
            model,
            digits,
            box_side,
            ..
        }
        | Request::Sweep {
            model,
            digits,
            box_side,
            ..
        }
        | Request::Recheck {
            model,
            digits,
            box_side,
            ..
        }
        | Request::Show {
            model,
            digits,
            box_side,
        } => ModelFile {
            name: model,
            how: How {
                digits: *digits,
                box_side: *box_side,
            },
        },
        _ => unreachable!(),
    }
}

/// The answer of a command to its model, and to the files that it reads after it.
fn answer_to<'a, S: Shelf>(
    alloc: Global,
    request: &'a Request,
    model: &IntModel,
    shelf: &mut S,
) -> Result<Made<'a>, Stop>
    requires ready { IsReady request.now }
    requires uncrossed { first_crossed model.now ≡ None }
    ensures prepared { IsPrepared (AnswersModel request.now model.now) (S.files shelf.old) (S.files shelf.new) (S.faults shelf.old)
        (S.faults shelf.new) (S.save_faults shelf.old) (S.save_faults shelf.new) result }
    ensures names { BeganFirst (S.begun_names shelf.old) (S.begun_names shelf.new) (files_after request.now) }
{
    match request {
        Request::Solve {
            tree,
            nodes,
            depth,
            pivots,
            ..
        } => {
            let limits = Limits {
                nodes: *nodes,
                depth: *depth,
                pivots: *pivots,
            };
            Ok(solved(alloc, model, limits, tree)?)
        }
        Request::Check { tree, .. } => checked(alloc, model, tree, shelf),
        Request::Ask {
            tree,
            questions,
            ..
        } => asked(alloc, model, tree, questions, shelf),
        Request::Sweep {
            sweep,
            proof,
            nodes,
            depth,
            pivots,
            ..
        } => {
            let limits = Limits {
                nodes: *nodes,
                depth: *depth,
                pivots: *pivots,
            };
            swept(alloc, model, sweep, limits, proof, shelf)
        }
        Request::Recheck { sweep, proof, .. } => rechecked(alloc, model, sweep, proof, shelf),
        Request::Show { .. } => Ok(shown(alloc, model)?),
        _ => unreachable!(),
    }
}

/// Reads the model file of a request, and makes the answer of its command.
fn answer<'a, S: Shelf>(
    alloc: Global,
    request: &'a Request,
    shelf: &mut S,
) -> Result<Made<'a>, Stop>
    requires { IsReady request.now }
    ensures prepared { IsPrepared (AnswersRequest request.now) (S.files shelf.old) (S.files shelf.new) (S.faults shelf.old)
        (S.faults shelf.new) (S.save_faults shelf.old) (S.save_faults shelf.new) result }
    ensures names { HasBegun (S.begun_names shelf.old) (S.begun_names shelf.new) (files_named request.now) }
{
    let file = model_file(request);
    match read_model(alloc, file.name, file.how, shelf) {
        Ok(model) => answer_to(alloc, request, &model, shelf),
        Err(unread) => without(unread),
    }
}

/// Carries out a request: the model file is read, then the files that the command reads after it; the whole text and the bytes to save are
/// made; then these are saved, and then the text is written. A file is begun only where the one before it was read and understood.
pub fn carry_out<S: Shelf, K: Sink>(
    alloc: Global,
    request: &Request,
    shelf: &mut S,
    out: &mut K,
) -> Status
    requires { IsReady request.now }
    ensures run { MeetsRequest request.now (shows (S.files shelf.old) (S.files shelf.new) (K.taken out.old) (K.taken out.new))
        (S.faults shelf.old) (S.faults shelf.new) (S.save_faults shelf.old) (S.save_faults shelf.new) (K.faults out.old) (K.faults out.new)
        (S.begun_names shelf.old) (S.begun_names shelf.new) result }
{
    let made = answer(alloc, request, shelf);
    send(shelf, out, made)
}

/// Answers a request to solve: the model file is read and searched for a cheapest plan, the whole text and the bytes of the proof are made,
/// then the proof is saved where a name is given, and then the text is written.
pub fn solve_at<S: Shelf, K: Sink>(
    alloc: Global,
    request: &Request,
    shelf: &mut S,
    out: &mut K,
) -> Status
    requires command { command_word request.now ≡ codes "solve" }
    requires ready { IsReady request.now }
    ensures run { MeetsRequest request.now (shows (S.files shelf.old) (S.files shelf.new) (K.taken out.old) (K.taken out.new))
        (S.faults shelf.old) (S.faults shelf.new) (S.save_faults shelf.old) (S.save_faults shelf.new) (K.faults out.old) (K.faults out.new)
        (S.begun_names shelf.old) (S.begun_names shelf.new) result }
{
    carry_out(alloc, request, shelf, out)
}

/// Answers a request to check: the model file is read, then the tree file, piece by piece; it is judged when it was read to its end, and
/// the verdict is written. The tree file is begun only where the model file has a model.
pub fn check_at<S: Shelf, K: Sink>(
    alloc: Global,
    request: &Request,
    shelf: &mut S,
    out: &mut K,
) -> Status
    requires command { command_word request.now ≡ codes "check" }
    requires ready { IsReady request.now }
    ensures run { MeetsRequest request.now (shows (S.files shelf.old) (S.files shelf.new) (K.taken out.old) (K.taken out.new))
        (S.faults shelf.old) (S.faults shelf.new) (S.save_faults shelf.old) (S.save_faults shelf.new) (K.faults out.old) (K.faults out.new)
        (S.begun_names shelf.old) (S.begun_names shelf.new) result }
{
    carry_out(alloc, request, shelf, out)
}

/// Answers a request to ask: the model file is read, then the tree file, then the questions file, each begun only where the one before it
/// was understood, and the questions file only where the proof is proved. Nothing is written before every question has its reply, and the
/// first question that is refused is the whole answer; else there is a line for each, with the bound of the tree for the model as the
/// question changes it, or the range of a number: the changes around 0 for which the tree proves that the best point stays the best one,
/// or that no point costs less than a number. A proof that is proved and questions of which none is refused are answered, unless reading
/// or writing failed or memory ran out.
pub fn ask_at<S: Shelf, K: Sink>(
    alloc: Global,
    request: &Request,
    shelf: &mut S,
    out: &mut K,
) -> Status
    requires command { command_word request.now ≡ codes "ask" }
    requires ready { IsReady request.now }
    ensures run { MeetsRequest request.now (shows (S.files shelf.old) (S.files shelf.new) (K.taken out.old) (K.taken out.new))
        (S.faults shelf.old) (S.faults shelf.new) (S.save_faults shelf.old) (S.save_faults shelf.new) (K.faults out.old) (K.faults out.new)
        (S.begun_names shelf.old) (S.begun_names shelf.new) result }
    ensures complete { AsksAccepted (S.files shelf.old) request.now → IsAnsweredUnless result }
{
    carry_out(alloc, request, shelf, out)
}

/// Answers a request to sweep: the model file is read, then the sweep file; its directions are tried, the model is solved along its steps,
/// and the whole text and the bytes of the sweep's proof are made. Then the proof of a finished sweep is saved where a name is given, and
/// then the text is written. A finished sweep has the exact optimal value at every step; one that stops has status 4, with its cause, and
/// saves nothing.
pub fn sweep_at<S: Shelf, K: Sink>(
    alloc: Global,
    request: &Request,
    shelf: &mut S,
    out: &mut K,
) -> Status
    requires command { command_word request.now ≡ codes "sweep" }
    requires ready { IsReady request.now }
    ensures run { MeetsRequest request.now (shows (S.files shelf.old) (S.files shelf.new) (K.taken out.old) (K.taken out.new))
        (S.faults shelf.old) (S.faults shelf.new) (S.save_faults shelf.old) (S.save_faults shelf.new) (K.faults out.old) (K.faults out.new)
        (S.begun_names shelf.old) (S.begun_names shelf.new) result }
{
    carry_out(alloc, request, shelf, out)
}

/// Answers a request to recheck: the model file is read, then the sweep file, whose directions are tried, and then the proof of a sweep,
/// each begun only where the one before it was understood. The proof is judged by the rules for that sweep, and the verdict is written.
pub fn recheck_at<S: Shelf, K: Sink>(
    alloc: Global,
    request: &Request,
    shelf: &mut S,
    out: &mut K,
) -> Status
    requires command { command_word request.now ≡ codes "recheck" }
    requires ready { IsReady request.now }
    ensures run { MeetsRequest request.now (shows (S.files shelf.old) (S.files shelf.new) (K.taken out.old) (K.taken out.new))
        (S.faults shelf.old) (S.faults shelf.new) (S.save_faults shelf.old) (S.save_faults shelf.new) (K.faults out.old) (K.faults out.new)
        (S.begun_names shelf.old) (S.begun_names shelf.new) result }
{
    carry_out(alloc, request, shelf, out)
}

/// Answers a request to show: the model file is read, the whole text is made, and then it is written.
pub fn show_at<S: Shelf, K: Sink>(
    alloc: Global,
    request: &Request,
    shelf: &mut S,
    out: &mut K,
) -> Status
    requires command { command_word request.now ≡ codes "show" }
    requires ready { IsReady request.now }
    ensures run { MeetsRequest request.now (shows (S.files shelf.old) (S.files shelf.new) (K.taken out.old) (K.taken out.new))
        (S.faults shelf.old) (S.faults shelf.new) (S.save_faults shelf.old) (S.save_faults shelf.new) (K.faults out.old) (K.faults out.new)
        (S.begun_names shelf.old) (S.begun_names shelf.new) result }
{
    carry_out(alloc, request, shelf, out)
}
