//! Reading a whole file, within a limit.

ghost use Rattle.std.specs.Prelude.{◌≡◌, ◌≢◌, ◌≤◌, ◌∷◌, [], IfOk, vec_len};
ghost use Rattle.ips_io.specs.Files.{Began, Keeps};
ghost use Rattle.ips_io.specs.Causes.{Rose};
ghost use Rattle.ips_io.specs.Shelves.{BecomesUnknown, IsTooLong, IsWhole};

use crate::Shelf;
use std::alloc::Global;

/// Why a file was not read.
#[derive(Clone, Copy, Debug, PartialEq, Eq)]
pub enum ReadError {
    /// The shelf failed to begin the file or to read it.
    Fault,
    /// The file has more bytes than were asked for at most.
    TooLong,
    /// Out of memory.
    Memory,
}

/// The most bytes that one read takes.
pub(crate) const PIECE: usize = 4096;

/// Reads the whole file of a name, of at most `most` bytes. `Fault` comes exactly where the shelf counted a failure, and then it is the
/// only one; `TooLong` exactly where the shelf gave more than `most` bytes. The file is begun once, and no other.
pub fn read_all<S: Shelf>(
    alloc: Global,
    shelf: &mut S,
    name: &str,
    most: u64,
) -> Result<Vec<u8>, ReadError>
    ensures names { Began (S.begun_names shelf.old) (S.begun_names shelf.new) (name.now ∷ []) }
    ensures saves { S.save_faults shelf.new ≡ S.save_faults shelf.old }
    ensures files { Keeps (S.files shelf.old) (S.files shelf.new) }
    ensures unknown { BecomesUnknown (S.files shelf.old) (S.files shelf.new) name.now }
    ensures fault { result ≡ Err ReadError.Fault → Rose (S.faults shelf.old) (S.faults shelf.new) }
    ensures no_fault { result ≢ Err ReadError.Fault → S.faults shelf.new ≡ S.faults shelf.old }
    ensures whole { IfOk result (λ v. IsWhole (S.files shelf.new) name.now v.items) }
    ensures length { IfOk result (λ v. vec_len v ≤ most) }
    ensures too_long { result ≡ Err ReadError.TooLong → IsTooLong (S.files shelf.new) name.now most }
{
    match shelf.begin(name) {
        Ok(()) => {}
        Err(_) => return Err(ReadError::Fault),
    }
    let mut bytes = Vec::new(alloc);
    let mut buffer = [0u8; PIECE];
    loop {
        match shelf.read(&mut buffer) {
            Ok(0) => return Ok(bytes),
            Ok(n) => {
                let room = most - bytes.len() as u64;
                if n as u64 > room {
                    return Err(ReadError::TooLong);
                }
                match bytes.extend_from_slice(&buffer[..n]) {
                    Ok(()) => {}
                    Err(_) => return Err(ReadError::Memory),
                }
            }
            Err(_) => return Err(ReadError::Fault),
        }
    }
}
