//! The command line of the program.

use crate::fractions::Kind;

/// A linear program that is solved a number of times, within a number of steps each.
#[derive(Clone, Copy)]
pub struct Solving<'a> {
    pub file: &'a str,
    pub steps: u32,
    pub count: u32,
}

/// What is timed, and how often.
#[derive(Clone, Copy)]
pub enum Request<'a> {
    Fractions { kind: Kind, count: u32 },
    Certificates { count: u32 },
    Tableau { count: u32 },
    LinearPrograms(Solving<'a>),
    All(Solving<'a>),
}

/// The request of the words of a command line, if they are one.
pub fn parsed<'a>(words: &'a [String]) -> Option<Request<'a>> {
    match words {
        [command, count] => by_count(command.as_str(), number(count)?),
        [command, kind, count] if command.as_str() == "fractions" => Some(Request::Fractions {
            kind: kind_of(kind.as_str())?,
            count: number(count)?,
        }),
        [command, file, steps, count] => {
            let file = file.as_str();
            let steps = number(steps)?;
            let count = number(count)?;
            by_file(command.as_str(), Solving { file, steps, count })
        }
        _ => None,
    }
}

fn number(word: &String) -> Option<u32> {
    word.as_str().parse().ok()
}

fn kind_of(word: &str) -> Option<Kind> {
    match word {
        "whole" => Some(Kind::Whole),
        "small" => Some(Kind::Small),
        "long" => Some(Kind::Long),
        _ => None,
    }
}

fn by_count<'a>(command: &str, count: u32) -> Option<Request<'a>> {
    match command {
        "certificates" => Some(Request::Certificates { count }),
        "tableau" => Some(Request::Tableau { count }),
        _ => None,
    }
}

fn by_file<'a>(command: &str, solving: Solving<'a>) -> Option<Request<'a>> {
    match command {
        "linear-programs" => Some(Request::LinearPrograms(solving)),
        "all" => Some(Request::All(solving)),
        _ => None,
    }
}
