//! What no clause says: that memory suffices for requests.

use ips_words::request;
use std::alloc::{AllocError, Global};

/// The words of a line.
fn words_of(alloc: Global, line: &str) -> Result<Vec<String>, AllocError> {
    let mut words = Vec::new(alloc);
    for word in line.split(' ') {
        words.push(String::from_str(alloc, word)?)?;
    }
    Ok(words)
}

/// What the words of a line ask for, in words.
fn asked(alloc: Global, line: &str) -> Result<String, AllocError> {
    let words = words_of(alloc, line)?;
    match request(alloc, words.as_slice()) {
        Ok(request) => format!(in alloc; "{request:?}"),
        Err(error) => format!(in alloc; "{error:?}"),
    }
}

/// Whether the words of a line ask for this.
fn asks(alloc: Global, line: &str, wanted: &str) -> bool {
    match asked(alloc, line) {
        Ok(text) => text.as_str() == wanted,
        Err(_) => false,
    }
}

#[test]
fn commands_are_requests(rt: HostRuntime) {
    for (line, wanted) in [
        (
            "solve m --pivots 7 --box 5 --depth 0 --nodes 1000000",
            "Solve { model: Name { text: \"m\" }, tree: None, nodes: 1000000, depth: 0, pivots: 7, \
            digits: 0, box_side: Some(5) }",
        ),
        (
            "show show --digits 9",
            "Show { model: Name { text: \"show\" }, digits: 9, box_side: None }",
        ),
    ] {
        assert!(rt; asks(rt.alloc(), line, wanted), "{line}");
    }
}
