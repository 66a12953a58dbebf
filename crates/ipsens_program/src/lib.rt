//! The whole body of the program: the arguments, the files of the machine, standard output and standard error.
#![tactic(auto)]

ghost use Rattle.std.specs.Prelude.{◌≡◌, None, map, string_bytes};
ghost use Rattle.ips_words.specs.Commands.{request_of};
ghost use Rattle.ipsens_core.specs.Runs.{IsRunOf, RunMeets, shows};

use ips_io::{file_shelf, out_sink};
use ipsens_core::{Status, report, run};
use std::process::ExitCode;
use std::rt::Env;
use std::{env, io};

/// The words after the program's name, none where they are no text: those are no command then.
fn words_of<R: Env + AllocGlobal>(rt: &R) -> Result<Vec<String>, io::Error> {
    let mut words = Vec::new(rt.alloc());
    let args = match env::args(rt) {
        Ok(args) => args,
        Err(error) => {
            if error.kind() == io::ErrorKind::OutOfMemory {
                return Err(error);
            }
            return Ok(words);
        }
    };
    for word in args.skip(1) {
        words.push(word)?;
    }
    Ok(words)
}

/// Runs words over the files of the machine and standard output. Their bytes are not known, so an answer is one to the words and to some
/// files.
pub fn run_words(rt: &HostRuntime, words: &[String]) -> Status
    ensures answer { RunMeets (IsRunOf (map string_bytes words.now)) (shows None None None None) result }
    ensures usage { result ≡ Status.Usage → request_of (map string_bytes words.now) ≡ None }
{
    let files = match rt.clone() {
        Ok(files) => files,
        Err(_) => return Status::Memory,
    };
    let output = match rt.clone() {
        Ok(output) => output,
        Err(_) => return Status::Memory,
    };
    let mut shelf = file_shelf(files);
    let mut out = out_sink(output);
    run(rt.alloc(), words, &mut shelf, &mut out)
}

/// The program: it runs the words of the command line, writes the line of a failure to standard error, and ends with the number of the
/// status.
pub fn program(rt: HostRuntime) -> ExitCode {
    let status = match words_of(&rt) {
        Ok(words) => run_words(&rt, words.as_slice()),
        Err(_) => Status::Memory,
    };
    let mut errors = out_sink(rt.stderr());
    ExitCode::from(report(status, &mut errors))
}
