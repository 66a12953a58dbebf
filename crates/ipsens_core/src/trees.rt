//! The tree file of a command: it is read to its end, piece by piece, and judged without being held.

ghost use Rattle.std.specs.Prelude.{◌≡◌, ◌≢◌, ◌∷◌, [], OnOk};
ghost use Rattle.ips_io.specs.Causes.{Rose};
ghost use Rattle.ips_io.specs.Files.{Began, BeganFirst, Keeps};
ghost use Rattle.ips_io.specs.Shelves.{BecomesUnknown, IsTooLong};
ghost use Rattle.tree_checker.specs.Streams.{HasStreamed};
ghost use Rattle.ipsens_core.specs.Internal.TreeFiles.{HasFedFile, IsTreeFile};

use ip_defs::{Memory, Name};
use ip_model::IntModel;
use ips_io::{ReadError, Shelf};
use std::alloc::Global;
use tree_checker::{StreamCheck, StreamError, Verdict, stream};

/// The longest tree file, in bytes: 256 MiB.
pub const LONGEST_TREE: u64 = 268_435_456;

/// The most bytes that one read takes.
const PIECE: usize = 16_384;

/// Feeds the whole file of a name to a check that has taken nothing, with what each read gives, to the end of the file or to the first
/// byte that is too much. A fault of the bytes does not end the reading: the check keeps it.
fn feed_file<S: Shelf>(
    shelf: &mut S,
    name: &Name,
    check: &mut StreamCheck<'_>,
) -> Result<(), ReadError>
    requires fresh { HasStreamed check.old.0 check.old [] }
    ensures fed { OnOk result (HasFedFile check.old.0 check.new (S.files shelf.new) name.now) }
    ensures too_long { result ≡ Err ReadError.TooLong → IsTooLong (S.files shelf.new) name.now 268435456 }
    ensures memory { result ≢ Err ReadError.Memory }
    ensures files { Keeps (S.files shelf.old) (S.files shelf.new) }
    ensures unknown { BecomesUnknown (S.files shelf.old) (S.files shelf.new) name.now }
    ensures names { Began (S.begun_names shelf.old) (S.begun_names shelf.new) (name.now ∷ []) }
    ensures saves { S.save_faults shelf.new ≡ S.save_faults shelf.old }
    ensures fault { result ≡ Err ReadError.Fault → Rose (S.faults shelf.old) (S.faults shelf.new) }
    ensures no_fault { result ≢ Err ReadError.Fault → S.faults shelf.new ≡ S.faults shelf.old }
{
    match shelf.begin(name.as_str()) {
        Ok(()) => {}
        Err(_) => return Err(ReadError::Fault),
    }
    let mut taken = 0;
    let mut buffer = [0u8; PIECE];
    loop {
        match shelf.read(&mut buffer) {
            Ok(0) => return Ok(()),
            Ok(n) => {
                if n as u64 > LONGEST_TREE - taken {
                    return Err(ReadError::TooLong);
                }
                taken += n as u64;
                let _ = check.feed(&buffer[..n]);
            }
            Err(_) => return Err(ReadError::Fault),
        }
    }
}

/// What the tree file of a name comes to for a model: the verdict on its proof, or why there is none. All memory is taken before the
/// file is begun.
pub fn judge_file<S: Shelf>(
    alloc: Global,
    model: &IntModel,
    name: &Name,
    shelf: &mut S,
) -> Result<Result<Verdict, StreamError>, ReadError>
    ensures file { IsTreeFile model.now (S.files shelf.old) (S.files shelf.new) name.now result }
    ensures keeps { Keeps (S.files shelf.old) (S.files shelf.new) }
    ensures names { BeganFirst (S.begun_names shelf.old) (S.begun_names shelf.new) (name.now ∷ []) }
    ensures saves { S.save_faults shelf.new ≡ S.save_faults shelf.old }
    ensures fault { result ≡ Err ReadError.Fault → Rose (S.faults shelf.old) (S.faults shelf.new) }
    ensures no_fault { result ≢ Err ReadError.Fault → S.faults shelf.new ≡ S.faults shelf.old }
{
    let mut check = match stream(alloc, model) {
        Ok(check) => check,
        Err(Memory) => return Err(ReadError::Memory),
    };
    match feed_file(shelf, name, &mut check) {
        Ok(()) => Ok(check.end()),
        Err(error) => Err(error),
    }
}
