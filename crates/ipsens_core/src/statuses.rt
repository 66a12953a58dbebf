//! How a run ends: its status, the number that the program ends with, and the line on standard error.

ghost use Rattle.std.specs.Prelude.{◌≡◌, ℕ, length, take};
ghost use Rattle.ips_io.specs.Causes.{HasCause};
ghost use Rattle.ips_io.specs.Files.{Takes};
ghost use Rattle.ipsens_core.specs.Statuses.{code_of, complaint_of, IsReported};

use ips_io::{Sink, write_all};

/// How a run ends. The program ends with the number of the status.
#[derive(Clone, Copy, Debug, PartialEq, Eq)]
pub enum Status {
    /// 0: the command was answered, and its whole text is written.
    Answered,
    /// 1: a proof that was read is not right.
    NotProved,
    /// 2: the words are no command.
    Usage,
    /// 3: a file is refused.
    Refused,
    /// 4: a search stopped at its budget.
    Budget,
    /// 5: a sweep met a number that is too wide.
    Wide,
    /// 6: reading failed.
    ReadFault,
    /// 7: writing failed.
    WriteFault,
    /// 8: out of memory.
    Memory,
}

/// The number of a status, with which the program ends.
pub fn code(status: Status) -> u8
    ensures { result ≡ code_of status }
{
    match status {
        Status::Answered => 0,
        Status::NotProved => 1,
        Status::Usage => 2,
        Status::Refused => 3,
        Status::Budget => 4,
        Status::Wide => 5,
        Status::ReadFault => 6,
        Status::WriteFault => 7,
        Status::Memory => 8,
    }
}

/// What is written to standard error at a status: a line, or nothing.
pub fn complaint(status: Status) -> &'static str
    ensures { result.now ≡ complaint_of status }
{
    match status {
        Status::ReadFault => "read fault\n",
        Status::WriteFault => "write fault\n",
        Status::Memory => "out of memory\n",
        _ => "",
    }
}

/// Writes the line of a status to standard error, and gives the number with which the program ends, whether that writing failed or not.
pub fn report<K: Sink>(status: Status, errors: &mut K) -> u8
    ensures code { result ≡ code_of status }
    ensures line { IsReported (K.taken errors.old) (K.taken errors.new) (K.faults errors.old) (K.faults errors.new) (complaint_of status) }
{
    let _ = write_all(errors, complaint(status).as_bytes());
    code(status)
}
