//! Command lines, one after another, over real files. Each is printed with what it writes to standard output, what it would write to
//! standard error, and the number that the program would end with.
#![tactic(auto)]

use ips_io::out_sink;
use ipsens_core::report;
use ipsens_program::run_words;
use std::alloc::{AllocError, Global};
use std::{fs, io};

/// The file of command lines; its lines that begin with `#` are comments. The files that they name lie beside it.
const COMMANDS: &str = "commands";

/// The words of a line: none of an empty one.
fn words_of(alloc: Global, line: &str) -> Result<Vec<String>, AllocError> {
    let mut words = Vec::new(alloc);
    if line.is_empty() {
        return Ok(words);
    }
    for word in line.split(' ') {
        words.push(String::from_str(alloc, word)?)?;
    }
    Ok(words)
}

/// Runs a command line, and prints it, what it writes, and how it ends.
fn run_line(rt: &HostRuntime, line: &str) -> Result<(), io::Error> {
    println!(rt; "$ ipsens {line}")?;
    let words = words_of(rt.alloc(), line)?;
    let status = run_words(rt, words.as_slice());
    let mut errors = out_sink(rt.clone()?);
    let number = report(status, &mut errors);
    println!(rt; "status {number}")
}

fn main(rt: HostRuntime) -> Result<(), io::Error> {
    let commands = fs::read_to_string(&rt, COMMANDS)?;
    for line in commands.lines() {
        if !line.starts_with('#') {
            run_line(&rt, line)?;
        }
    }
    Ok(())
}
