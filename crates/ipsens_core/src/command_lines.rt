//! The top call: the words are read, and the command that they ask for is run.

ghost use Rattle.std.specs.Prelude.{◌≡◌, ◌≢◌, ◌⊎◌, None, map, string_bytes};
ghost use Rattle.std.specs.Option.{ForSome};
ghost use Rattle.ips_io.specs.Files.{BeganFirst};
ghost use Rattle.ipsens_core.specs.Accepted.{AsksAccepted, IsAnsweredUnless};
ghost use Rattle.ipsens_core.specs.Runs.{HasCauses, IsRunOf, RunMeets, files_asked, shows};
ghost use Rattle.ips_words.specs.Commands.{request_of};

use crate::answers::finish;
use crate::commands::carry_out;
use crate::statuses::Status;
use ips_io::{Shelf, Sink};
use ips_words::{USAGE, WordsError, request};
use std::alloc::Global;

/// Runs the command of the words over a shelf of files and a sink of output: the words are read, then the files of the command, then the
/// whole text and the bytes to save are made, then these are saved, and then the text is written. No failure of the shelf or the sink is
/// hidden: each ends the run with its status. No file is begun but those that the words name, in their order.
pub fn run<S: Shelf, K: Sink>(alloc: Global, words: &[String], shelf: &mut S, out: &mut K) -> Status
    ensures answer { RunMeets (IsRunOf (map string_bytes words.now)) (shows (S.files shelf.old) (S.files shelf.new) (K.taken out.old)
        (K.taken out.new)) result }
    ensures usage { result ≡ Status.Usage → request_of (map string_bytes words.now) ≡ None }
    ensures no_request { request_of (map string_bytes words.now) ≡ None → (result ≡ Status.Usage) ⊎ ((result ≡ Status.WriteFault) ⊎
        (result ≡ Status.Memory)) }
    ensures causes { HasCauses (S.faults shelf.old) (S.faults shelf.new) (S.save_faults shelf.old) (S.save_faults shelf.new) (K.faults
        out.old) (K.faults out.new) result }
    ensures unsaved { S.save_faults shelf.new ≢ S.save_faults shelf.old → K.taken out.new ≡ K.taken out.old }
    ensures complete { ForSome (request_of (map string_bytes words.now)) (λ q. AsksAccepted (S.files shelf.old) q → IsAnsweredUnless
        result) }
    ensures begun { BeganFirst (S.begun_names shelf.old) (S.begun_names shelf.new) (files_asked (map string_bytes words.now)) }
{
    let request = match request(alloc, words) {
        Ok(request) => request,
        Err(WordsError::Usage) => return finish(out, Status::Usage, USAGE),
        Err(WordsError::Memory) => return Status::Memory,
    };
    carry_out(alloc, &request, shelf, out)
}
