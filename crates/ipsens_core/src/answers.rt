//! Answers on their way out: why there is none, and how a made one is saved and written.

ghost use Rattle.std.specs.Prelude.{◌≡◌, ◌≢◌, IfOk, OnErr, OnOk, option_map};
ghost use Rattle.ips_io.specs.Causes.{HasCause};
ghost use Rattle.ipsens_core.specs.Answers.{says as answer_that_says};
ghost use Rattle.ipsens_core.specs.Internal.Made.{answer_of, file_saved, IsWritten};
ghost use Rattle.ipsens_core.specs.Internal.Writes.{Delivers, IsSent, Writes};
ghost use Rattle.ipsens_core.specs.Runs.{MaySave, OneRose, Saves, shows};

use crate::statuses::Status;
use ip_defs::{Memory, Name};
use ips_io::{Failed, Shelf, Sink, write_all};

/// A file that is to be saved: its name and its bytes.
#[derive(Debug, Drop)]
pub struct Saved<'a> {
    pub name: &'a Name,
    pub bytes: Vec<u8>,
}

/// An answer: its status, the whole text that it prints, and the file that it saves.
#[derive(Debug, Drop)]
pub struct Made<'a> {
    pub status: Status,
    pub text: Vec<u8>,
    pub saved: Option<Saved<'a>>,
}

/// Why a command has no answer.
#[derive(Clone, Copy, Debug, PartialEq, Eq)]
pub enum Stop {
    /// Reading a file failed.
    ReadFault,
    /// Out of memory.
    Memory,
}

impl From<Memory> for Stop {
    ghost use Rattle.ipsens_core.specs.declared.answers.Stop.TheVariants.{Memory};

    ghost from_gives = { λ _ stop. stop ≡ Memory };

    fn from(_error: Memory) -> Stop {
        Stop::Memory
    }
}

/// An answer that saves nothing.
pub fn says<'a>(status: Status, text: Vec<u8>) -> Made<'a>
    ensures { answer_of result ≡ answer_that_says status text.items }
{
    Made {
        status,
        text,
        saved: None,
    }
}

/// Writes the whole text of an answer, and gives its status, or that writing failed.
pub fn finish<K: Sink>(out: &mut K, status: Status, text: &[u8]) -> Status
    ensures writes { Writes (K.taken out.old) (K.taken out.new) (K.faults out.old) (K.faults out.new) status text.now result }
{
    match write_all(out, text) {
        Ok(()) => status,
        Err(_) => Status::WriteFault,
    }
}

/// Saves the file of an answer, if there is one.
fn save<S: Shelf>(shelf: &mut S, saved: &Option<Saved<'_>>) -> Result<(), Failed>
    ensures saved { OnOk result (Saves (S.files shelf.old) (S.files shelf.new) (option_map file_saved saved.now)) }
    ensures others { OnErr result (MaySave (S.files shelf.old) (S.files shelf.new) (option_map file_saved saved.now)) }
    ensures cause { HasCause (S.save_faults shelf.old) (S.save_faults shelf.new) result }
    ensures faults { S.faults shelf.new ≡ S.faults shelf.old }
    ensures names { S.begun_names shelf.new ≡ S.begun_names shelf.old }
{
    match saved {
        Some(saved) => shelf.save(saved.name.as_str(), saved.bytes.as_slice()),
        None => Ok(()),
    }
}

/// Saves the file of an answer, then writes its text. Where saving failed, nothing is written.
fn deliver<S: Shelf, K: Sink>(shelf: &mut S, out: &mut K, made: &Made<'_>) -> Status
    requires { IsWritten made.now.status }
    ensures ends { (result ≢ Status.ReadFault) × (result ≢ Status.Usage) }
    ensures delivers { Delivers (shows (S.files shelf.old) (S.files shelf.new) (K.taken out.old) (K.taken out.new)) (answer_of made.now)
        result }
    ensures write_fault { result ≡ Status.WriteFault → OneRose (S.save_faults shelf.old) (S.save_faults shelf.new) (K.faults out.old)
        (K.faults out.new) }
    ensures no_write_fault { result ≢ Status.WriteFault → (S.save_faults shelf.new ≡ S.save_faults shelf.old) × (K.faults out.new ≡
        K.faults out.old) }
    ensures unsaved { S.save_faults shelf.new ≢ S.save_faults shelf.old → K.taken out.new ≡ K.taken out.old }
    ensures faults { S.faults shelf.new ≡ S.faults shelf.old }
    ensures names { S.begun_names shelf.new ≡ S.begun_names shelf.old }
{
    match save(shelf, &made.saved) {
        Ok(()) => finish(out, made.status, made.text.as_slice()),
        Err(_) => Status::WriteFault,
    }
}

/// Delivers a made answer, or gives the status that says why there is none.
pub fn send<S: Shelf, K: Sink>(shelf: &mut S, out: &mut K, made: Result<Made<'_>, Stop>) -> Status
    requires { IfOk made (λ answer. IsWritten answer.status) }
    ensures sent { IsSent (shows (S.files shelf.old) (S.files shelf.new) (K.taken out.old) (K.taken out.new)) made.entry result }
    ensures read_fault { result ≡ Status.ReadFault → made.entry ≡ Err Stop.ReadFault }
    ensures no_read_fault { result ≢ Status.ReadFault → made.entry ≢ Err Stop.ReadFault }
    ensures write_fault { result ≡ Status.WriteFault → OneRose (S.save_faults shelf.old) (S.save_faults shelf.new) (K.faults out.old)
        (K.faults out.new) }
    ensures no_write_fault { result ≢ Status.WriteFault → (S.save_faults shelf.new ≡ S.save_faults shelf.old) × (K.faults out.new ≡
        K.faults out.old) }
    ensures faults { S.faults shelf.new ≡ S.faults shelf.old }
    ensures names { S.begun_names shelf.new ≡ S.begun_names shelf.old }
    ensures unsaved { S.save_faults shelf.new ≢ S.save_faults shelf.old → K.taken out.new ≡ K.taken out.old }
    ensures no_usage { result ≢ Status.Usage }
{
    match made {
        Ok(made) => deliver(shelf, out, &made),
        Err(Stop::ReadFault) => Status::ReadFault,
        Err(Stop::Memory) => Status::Memory,
    }
}
