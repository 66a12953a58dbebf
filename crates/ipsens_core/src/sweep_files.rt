//! The sweep file of a command: it is read to its end, and its directions are tried in the model; or it is refused.

ghost use Rattle.std.specs.Prelude.{◌≡◌, ◌≢◌, ◌≤◌, ◌∷◌, [], IfOk, codes, length};
ghost use Rattle.ips_io.specs.Causes.{Rose};
ghost use Rattle.ips_io.specs.Files.{Began, Keeps};
ghost use Rattle.mps_defs.specs.Lists.{AreDistinct};
ghost use Rattle.question_text.specs.SweepFiles.{IsFollowable, moved_by};
ghost use Rattle.question_text.specs.declared.sweeps.Sweep.TheVariants as Swept;
ghost use Rattle.sweep_directions.specs.Directions.{IsDirection};
ghost use Rattle.ipsens_core.specs.Internal.Files.{IsLineOf};
ghost use Rattle.ipsens_core.specs.Internal.SweepFiles.{IsDirected, IsSweepFile, IsSweepText};
ghost use Rattle.ipsens_core.specs.QuestionRefusals.{edit_text, text_fault};
ghost use Rattle.ipsens_core.specs.Refusals.{refused};

use crate::files::{Unread, read_file, refused_with};
use crate::question_refusals::{direction_line, text_fault_line};
use ip_defs::Name;
use ip_model::IntModel;
use ips_io::Shelf;
use question_text::{SideDirs, Sweep, TextError, read_sweep};
use std::alloc::Global;
use sweep_directions::{Directions, row_directions};
use tree_replies::EditError;

/// The longest sweep file, in bytes: 16 MiB.
const LONGEST_SWEEP: u64 = 16_777_216;

/// What is printed for a sweep file that is too long.
const SWEEP_TOO_LONG: &str = "refused sweep too long\n";

/// What is printed for a sweep of the objective, which is not built.
const NOT_BUILT: &str = "refused sweep S0\n";

/// The course of a sweep of row sides: each side that moves, with its move by one step in the units of its row, and how many steps it
/// takes.
#[derive(Debug, Drop)]
pub struct Course {
    pub dir: Directions,
    pub steps: u32,
}

/// The refusal of a text for its first fault.
fn refused_text(alloc: Global, error: TextError) -> Unread
    ensures { IsLineOf (refused (codes "sweep") (text_fault error)) result }
{
    match text_fault_line(alloc, "sweep", error) {
        Ok(line) => Unread::Refused(line.into_bytes()),
        Err(_) => Unread::Memory,
    }
}

/// The refusal of a direction.
fn refused_direction(alloc: Global, error: EditError) -> Unread
    ensures { IsLineOf (refused (codes "sweep") (edit_text error)) result }
{
    match direction_line(alloc, error) {
        Ok(line) => Unread::Refused(line.into_bytes()),
        Err(_) => Unread::Memory,
    }
}

/// The course of directions in a model, or their refusal.
fn directed_course(
    alloc: Global,
    model: &IntModel,
    dirs: &SideDirs,
    steps: u32,
) -> Result<Course, Unread>
    requires followable { IsFollowable (Swept.Rows steps dirs.now) }
    requires distinct { AreDistinct (moved_by (Swept.Rows steps dirs.now)) }
    ensures course { IsDirected model.now dirs.now steps result }
    ensures direction { IfOk result (λ c. IsDirection model.now c.steps c.dir) }
    ensures few { IfOk result (λ c. c.steps ≤ 1000000) }
{
    match row_directions(alloc, model, dirs, steps) {
        Ok(dir) => Ok(Course { dir, steps }),
        Err(EditError::Memory) => Err(Unread::Memory),
        Err(error) => Err(refused_direction(alloc, error)),
    }
}

/// The course of the text of a sweep file, or its refusal: its first fault, then that it sweeps the objective, then its directions.
fn understand(alloc: Global, model: &IntModel, text: &[u8]) -> Result<Course, Unread>
    requires { length text.now ≤ 16777216 }
    ensures course { IsSweepText model.now text.now result }
    ensures direction { IfOk result (λ c. IsDirection model.now c.steps c.dir) }
    ensures few { IfOk result (λ c. c.steps ≤ 1000000) }
{
    match read_sweep(alloc, text) {
        Ok(Sweep::Rows { steps, dir }) => directed_course(alloc, model, &dir, steps),
        Ok(Sweep::Cost { .. }) => Err(refused_with(alloc, NOT_BUILT)),
        Err(TextError::Memory) => Err(Unread::Memory),
        Err(error) => Err(refused_text(alloc, error)),
    }
}

/// Reads the sweep file of a name for a model: its course, or the text of its refusal. `ReadFault` comes exactly where the shelf counted
/// a failure.
pub fn read_course<S: Shelf>(
    alloc: Global,
    model: &IntModel,
    name: &Name,
    shelf: &mut S,
) -> Result<Course, Unread>
    ensures file { IsSweepFile model.now (S.files shelf.old) (S.files shelf.new) name.now result }
    ensures direction { IfOk result (λ c. IsDirection model.now c.steps c.dir) }
    ensures few { IfOk result (λ c. c.steps ≤ 1000000) }
    ensures keeps { Keeps (S.files shelf.old) (S.files shelf.new) }
    ensures names { Began (S.begun_names shelf.old) (S.begun_names shelf.new) (name.now ∷ []) }
    ensures saves { S.save_faults shelf.new ≡ S.save_faults shelf.old }
    ensures fault { result ≡ Err Unread.ReadFault → Rose (S.faults shelf.old) (S.faults shelf.new) }
    ensures no_fault { result ≢ Err Unread.ReadFault → S.faults shelf.new ≡ S.faults shelf.old }
{
    match read_file(alloc, name, LONGEST_SWEEP, SWEEP_TOO_LONG, shelf) {
        Ok(text) => understand(alloc, model, text.as_slice()),
        Err(unread) => Err(unread),
    }
}
