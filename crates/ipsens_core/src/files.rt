//! Reading a file of a command: its bytes, or why there are none.

ghost use Rattle.std.specs.Prelude.{◌≡◌, ◌≢◌, ◌∷◌, []};
ghost use Rattle.ips_io.specs.Causes.{Rose};
ghost use Rattle.ips_io.specs.Files.{Began, Keeps};
ghost use Rattle.ipsens_core.specs.Internal.Files.{IsFile, IsLineOf, IsWithout};

use crate::answers::{Made, Stop, says};
use crate::statuses::Status;
use ip_defs::{Listed, Name};
use ips_io::{ReadError, Shelf, read_all};
use std::alloc::Global;

/// Why a file gives a command nothing to go on with.
#[derive(Debug, Drop)]
pub enum Unread {
    /// It is refused, with this text.
    Refused(Vec<u8>),
    /// Reading it failed.
    ReadFault,
    /// Out of memory.
    Memory,
}

/// The refusal of a file with a line that is known.
pub fn refused_with(alloc: Global, line: &str) -> Unread
    ensures { IsLineOf line.now result }
{
    match String::from_str(alloc, line) {
        Ok(text) => Unread::Refused(text.into_bytes()),
        Err(_) => Unread::Memory,
    }
}

/// Reads the file of a name, of at most `longest` bytes, to its end. One that is longer is refused with the line. `ReadFault` comes
/// exactly where the shelf counted a failure.
pub fn read_file<S: Shelf>(
    alloc: Global,
    name: &Name,
    longest: u64,
    line: &str,
    shelf: &mut S,
) -> Result<Listed<u8>, Unread>
    ensures file { IsFile (S.files shelf.old) (S.files shelf.new) name.now longest line.now result }
    ensures keeps { Keeps (S.files shelf.old) (S.files shelf.new) }
    ensures names { Began (S.begun_names shelf.old) (S.begun_names shelf.new) (name.now ∷ []) }
    ensures saves { S.save_faults shelf.new ≡ S.save_faults shelf.old }
    ensures fault { result ≡ Err Unread.ReadFault → Rose (S.faults shelf.old) (S.faults shelf.new) }
    ensures no_fault { result ≢ Err Unread.ReadFault → S.faults shelf.new ≡ S.faults shelf.old }
{
    match read_all(alloc, shelf, name.as_str(), longest) {
        Ok(bytes) => Ok(Listed::from_vec(bytes)),
        Err(ReadError::Fault) => Err(Unread::ReadFault),
        Err(ReadError::TooLong) => Err(refused_with(alloc, line)),
        Err(ReadError::Memory) => Err(Unread::Memory),
    }
}

/// The answer of a command where a file gives nothing: the refusal, or why there is none.
pub fn without<'a>(unread: Unread) -> Result<Made<'a>, Stop>
    ensures { IsWithout unread result }
{
    match unread {
        Unread::Refused(text) => Ok(says(Status::Refused, text)),
        Unread::ReadFault => Err(Stop::ReadFault),
        Unread::Memory => Err(Stop::Memory),
    }
}
