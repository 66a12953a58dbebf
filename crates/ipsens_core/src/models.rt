//! The model file of a command: it is read to its end, and understood or refused.

ghost use Rattle.std.specs.Prelude.{◌≡◌, ◌≢◌, ◌≤◌, ◌∷◌, [], IfOk, length};
ghost use Rattle.ip_model.specs.Sizes.{first_crossed};
ghost use Rattle.ips_io.specs.Causes.{Rose};
ghost use Rattle.ips_io.specs.Files.{Began, Keeps};
ghost use Rattle.mps_defs.specs.TextModels.{IsHow};
ghost use Rattle.ipsens_core.specs.Internal.Files.{IsLineOf};
ghost use Rattle.ipsens_core.specs.Internal.ModelFiles.{IsModelFile, IsModelText};
ghost use Rattle.ipsens_core.specs.ModelRefusals.{refusal_text, refused_model};

use crate::files::{Unread, read_file};
use crate::model_refusals::{TOO_LONG, refusal_line};
use ip_defs::Name;
use ip_model::IntModel;
use ips_io::Shelf;
use mps_defs::{How, MpsError};
use mps_reader::read;
use std::alloc::Global;

/// The longest model file, in bytes: 16 MiB.
const LONGEST_MODEL: u64 = 16_777_216;

/// The refusal of a model text.
fn refused(alloc: Global, error: &MpsError) -> Unread
    requires { error.now ≢ MpsError.Memory }
    ensures { IsLineOf (refused_model (refusal_text error.now)) result }
{
    match refusal_line(alloc, error) {
        Ok(line) => Unread::Refused(line.into_bytes()),
        Err(_) => Unread::Memory,
    }
}

/// The model of a text, or the refusal of its first fault.
fn understand(alloc: Global, bytes: &[u8], how: How) -> Result<IntModel, Unread>
    requires how { IsHow how }
    requires length { length bytes.now ≤ 16777216 }
    ensures text { IsModelText bytes.now how result }
    ensures uncrossed { IfOk result (λ m. first_crossed m ≡ None) }
{
    match read(alloc, bytes, how) {
        Ok(model) => Ok(model),
        Err(MpsError::Memory) => Err(Unread::Memory),
        Err(error) => Err(refused(alloc, &error)),
    }
}

/// Reads the model file of a name: its model, or the text of its refusal. `ReadFault` comes exactly where the shelf counted
/// a failure.
pub fn read_model<S: Shelf>(
    alloc: Global,
    name: &Name,
    how: How,
    shelf: &mut S,
) -> Result<IntModel, Unread>
    requires { IsHow how }
    ensures file { IsModelFile (S.files shelf.old) (S.files shelf.new) name.now how result }
    ensures uncrossed { IfOk result (λ m. first_crossed m ≡ None) }
    ensures keeps { Keeps (S.files shelf.old) (S.files shelf.new) }
    ensures names { Began (S.begun_names shelf.old) (S.begun_names shelf.new) (name.now ∷ []) }
    ensures saves { S.save_faults shelf.new ≡ S.save_faults shelf.old }
    ensures fault { result ≡ Err Unread.ReadFault → Rose (S.faults shelf.old) (S.faults shelf.new) }
    ensures no_fault { result ≢ Err Unread.ReadFault → S.faults shelf.new ≡ S.faults shelf.old }
{
    match read_file(alloc, name, LONGEST_MODEL, TOO_LONG, shelf) {
        Ok(bytes) => understand(alloc, bytes.as_slice(), how),
        Err(unread) => Err(unread),
    }
}
