//! Times the parts of the solver: each command does one part COUNT times, on operands that are the same in each run, and prints its
//! last answer or a checksum.
#![tactic(auto)]

mod certificates;
mod fractions;
mod linear_programs;
mod pivots;
mod requests;

use fractions::Kind;
use ip_defs::Memory;
use ips_io::{FileShelf, file_shelf};
use requests::{Request, Solving, parsed};
use sample_models::SampleError;
use std::alloc::{AllocError, Global};
use std::fs::Files;
use std::process::ExitCode;
use std::rt::Env;
use std::{env, io};
use thiserror::Error;

const USAGE: &str = "usage:
  ipsens_bench fractions whole|small|long COUNT    products and differences of fractions
  ipsens_bench certificates COUNT                  bounds of leaves by a certificate
  ipsens_bench tableau COUNT                       pivots of a tableau
  ipsens_bench linear-programs FILE STEPS COUNT    the linear program of a model file
  ipsens_bench all FILE STEPS COUNT                each of them, a line for each";

/// Why nothing was timed.
#[derive(Clone, Copy, Debug, Error)]
pub enum BenchError {
    #[error("out of memory")]
    Memory,
    /// The file is not the file of a model, or the model is not within its limits.
    #[error("no model within the limits can be read")]
    NoModel,
    #[error("a pivot cannot be made")]
    NoPivot,
}

impl From<AllocError> for BenchError {
    fn from(error: AllocError) -> BenchError {
        BenchError::from(SampleError::from(error))
    }
}

impl From<Memory> for BenchError {
    fn from(error: Memory) -> BenchError {
        BenchError::from(SampleError::from(error))
    }
}

impl From<SampleError> for BenchError {
    fn from(error: SampleError) -> BenchError {
        match error {
            SampleError::Memory => BenchError::Memory,
            SampleError::NoModel => BenchError::NoModel,
        }
    }
}

/// The words after the program's name.
fn words_of<R: Env + AllocGlobal>(rt: &R) -> Result<Vec<String>, io::Error> {
    let mut words = Vec::new(rt.alloc());
    for word in env::args(rt)?.skip(1) {
        words.push(word)?;
    }
    Ok(words)
}

/// The text of all four parts, a line for each.
fn all_texts<R: Files + Drop>(
    alloc: Global,
    shelf: &mut FileShelf<R>,
    solving: Solving,
) -> Result<String, BenchError> {
    let sum = fractions::checksum_after(Kind::Long, solving.count);
    let bound = certificates::bound_after(alloc, solving.count)?;
    let pivots = pivots::checksum_after(alloc, solving.count)?;
    let answer = linear_programs::answer_after(alloc, shelf, solving)?;
    Ok(format!(in alloc; "{sum}\n{bound:?}\n{pivots}\n{answer}")?)
}

/// What a request prints.
fn text_of<R: Files + Drop>(
    alloc: Global,
    shelf: &mut FileShelf<R>,
    request: Request,
) -> Result<String, BenchError> {
    match request {
        Request::Fractions { kind, count } => {
            let sum = fractions::checksum_after(kind, count);
            Ok(format!(in alloc; "{sum}")?)
        }
        Request::Certificates { count } => {
            let bound = certificates::bound_after(alloc, count)?;
            Ok(format!(in alloc; "{bound:?}")?)
        }
        Request::Tableau { count } => {
            let sum = pivots::checksum_after(alloc, count)?;
            Ok(format!(in alloc; "{sum}")?)
        }
        Request::LinearPrograms(solving) => linear_programs::answer_after(alloc, shelf, solving),
        Request::All(solving) => all_texts(alloc, shelf, solving),
    }
}

fn main(rt: HostRuntime) -> io::Result<ExitCode> {
    let words = words_of(&rt)?;
    let mut shelf = file_shelf(rt.clone()?);
    let Some(request) = parsed(words.as_slice()) else {
        eprintln!(rt; "{USAGE}")?;
        return Ok(ExitCode::from(2));
    };
    match text_of(rt.alloc(), &mut shelf, request) {
        Ok(text) => {
            println!(rt; "{text}")?;
            Ok(ExitCode::from(0))
        }
        Err(error) => {
            eprintln!(rt; "{error}")?;
            Ok(ExitCode::from(1))
        }
    }
}
