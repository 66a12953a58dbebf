//! Runs of a command line over files and output in memory, and what is wanted of them.

use ip_defs::Memory;
use ips_io::{mem_shelf, mem_sink};
use ipsens_core::{Status, run};
use std::alloc::{AllocError, Global};

/// A command line, the files that it finds, and how they and the output behave.
#[derive(Clone, Copy)]
pub struct Given<'a> {
    pub line: &'a str,
    /// The file `m`.
    pub model: &'a [u8],
    /// The file `t`; there is none where it has no bytes.
    pub tree: &'a [u8],
    /// The most bytes that a read moves.
    pub read: u64,
    /// The most bytes that a write moves.
    pub write: u64,
    /// The call of the shelf that fails, from 1; 0 for none.
    pub shelf_fails: u64,
    /// The call of the sink that fails, from 1; 0 for none.
    pub sink_fails: u64,
}

/// What is wanted of a run.
#[derive(Clone, Copy)]
pub struct Wanted<'a> {
    status: Status,
    text: &'a str,
    /// Whether more may follow the text.
    goes_on: bool,
    /// Whether a file `t` stands afterwards.
    tree: bool,
}

/// This status and this text, and no tree.
pub fn writes(status: Status, text: &str) -> Wanted<'_> {
    Wanted {
        status,
        text,
        goes_on: false,
        tree: false,
    }
}

/// This status and a text that begins so, and no tree.
pub fn begins(status: Status, text: &str) -> Wanted<'_> {
    Wanted {
        status,
        text,
        goes_on: true,
        tree: false,
    }
}

/// This status and this text, beside a tree.
pub fn with_tree(status: Status, text: &str) -> Wanted<'_> {
    Wanted {
        status,
        text,
        goes_on: false,
        tree: true,
    }
}

/// `solve m` of this model, in pieces of these lengths, with no failure.
pub fn solving(model: &[u8], read: u64, write: u64) -> Given<'_> {
    Given {
        line: "solve m",
        model,
        tree: b"",
        read,
        write,
        shelf_fails: 0,
        sink_fails: 0,
    }
}

/// `check m t` of this model and this tree, in pieces of these lengths, with no failure.
pub fn checking<'a>(model: &'a [u8], tree: &'a [u8], read: u64, write: u64) -> Given<'a> {
    Given {
        line: "check m t",
        model,
        tree,
        read,
        write,
        shelf_fails: 0,
        sink_fails: 0,
    }
}

/// A run in which a call of the shelf and one of the sink fail.
pub fn failing<'a>(run: &Given<'a>, shelf_fails: u64, sink_fails: u64) -> Given<'a> {
    Given {
        line: run.line,
        model: run.model,
        tree: run.tree,
        read: run.read,
        write: run.write,
        shelf_fails,
        sink_fails,
    }
}

/// The words of a line.
fn words_of(alloc: Global, line: &str) -> Result<Vec<String>, AllocError> {
    let mut words = Vec::new(alloc);
    for word in line.split(' ') {
        words.push(String::from_str(alloc, word)?)?;
    }
    Ok(words)
}

/// Whether bytes are a text, or begin with it where more may follow.
fn is_wanted(bytes: &[u8], wanted: &Wanted<'_>) -> bool {
    bytes.starts_with(wanted.text.as_bytes())
        && (wanted.goes_on || bytes.len() == wanted.text.len())
}

/// Whether a run of these words does what is wanted of it, where memory suffices for the shelf and the sink.
fn ended(
    alloc: Global,
    words: &[String],
    given: &Given<'_>,
    wanted: &Wanted<'_>,
) -> Result<bool, Memory> {
    let mut shelf = mem_shelf(alloc, 2, 20_000_000, given.read.max(1))?;
    let mut sink = mem_sink(alloc, 10_000_000, given.write.max(1))?;
    let added = shelf.add("m", given.model)
        && (given.tree.is_empty() || shelf.add("t", given.tree));
    let _listed = shelf.fail_at(given.shelf_fails);
    let _listed_too = sink.fail_at(given.sink_fails);
    let status = run(alloc, words, &mut shelf, &mut sink);
    let kept = shelf.file("t").is_some() == wanted.tree;
    Ok(added && kept && status == wanted.status && is_wanted(sink.bytes(), wanted))
}

/// Whether memory suffices for a run and it does what is wanted of it.
pub fn ends(alloc: Global, given: &Given<'_>, wanted: &Wanted<'_>) -> bool {
    match words_of(alloc, given.line) {
        Ok(words) => ended(alloc, words.as_slice(), given, wanted) == Ok(true),
        Err(_) => false,
    }
}
