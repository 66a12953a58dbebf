//! What no clause says: that memory suffices for each refusal; and the words of the refusals.

use mps_reader::{How, MpsError, read};
use std::alloc::{AllocError, Global};

/// The longest text of these tests.
const MOST_BYTES: usize = 100;

/// The words of a refusal, or the kind and the index of a limit.
fn words_of(alloc: Global, error: &MpsError) -> Result<String, AllocError> {
    match error {
        MpsError::Limit { limit } => format!(in alloc; "{:?} {}", limit.what, limit.index),
        _ => format!(in alloc; "{error}"),
    }
}

/// Whether these are the words of a refusal.
fn says(alloc: Global, error: &MpsError, words: &str) -> bool {
    match words_of(alloc, error) {
        Ok(text) => text.as_str() == words,
        Err(_) => false,
    }
}

/// Whether a short text is refused in these words.
fn is_refused(alloc: Global, text: &[u8], words: &str) -> bool {
    if text.len() > MOST_BYTES {
        return false;
    }
    let how = How {
        digits: 0,
        box_side: None,
    };
    match read(alloc, text, how) {
        Ok(_) => false,
        Err(error) => says(alloc, &error, words),
    }
}

#[test]
fn lines_are_refused(rt: HostRuntime) {
    for (text, words) in [
        ("ROWS\nENDATA\n", "line 2: a section is out of order"),
        ("* note\n\n\t \nROW\n", "line 4: unknown section"),
        ("ROWS\n N\n", "line 2: wrong number of fields"),
        ("ROWS\n n a\n", "line 2: unknown kind of row"),
        ("ROWS\r\n N a\r\n L a\r\n", "line 3: the row stands twice"),
        ("ROWS\n N 'MARKER'\n", "line 2: wrong marker"),
        ("ROWS\n N c\nCOLUMNS\n x r 1\n", "line 4: unknown row"),
        (
            "ROWS\n N c\nCOLUMNS\n x c 4x\n",
            "line 4: a field is no number",
        ),
        (
            "ROWS\n N c\nCOLUMNS\n x c 1e-10\n",
            "line 4: more than nine decimals",
        ),
        (
            "ROWS\n N c\nCOLUMNS\n x c 1 c 2\n",
            "line 4: the entry is written twice",
        ),
        (
            "ROWS\n N c\nCOLUMNS\n x c 1\n y c 1\n x c 2\n",
            "line 6: the column comes again",
        ),
        (
            "ROWS\n N c\nCOLUMNS\nBOUNDS\n XX\n",
            "line 5: unknown kind of bound",
        ),
        (
            "ROWS\n N c\nCOLUMNS\nBOUNDS\n FR s x\n",
            "line 5: unknown column",
        ),
    ] {
        assert!(rt; is_refused(rt.alloc(), text.as_bytes(), words), "{words}");
    }
}

#[test]
fn whole_texts_are_refused(rt: HostRuntime) {
    for (text, words) in [
        (
            b"ROWS\n N c\nCOLUMNS\n".as_slice(),
            "there is no ENDATA line",
        ),
        (
            b"ROWS\n L c\nCOLUMNS\nENDATA\n",
            "there is no objective row",
        ),
        (
            b"ROWS\n N c\nCOLUMNS\n x c 1\nENDATA\n",
            "column x is not integer",
        ),
        (
            b"ROWS\n N c\nCOLUMNS\n x c 1\nBOUNDS\n LI x 1\nENDATA\n",
            "column x has no Upper bound",
        ),
        (
            b"ROWS\n N c\nCOLUMNS\n x c 1\nBOUNDS\n UI x -1\nENDATA\n",
            "column x has a negative upper bound and no lower one",
        ),
        (
            b"ROWS\n N c\nCOLUMNS\n x c 1\nBOUNDS\n UI x 16777217\nENDATA\n",
            "Upper 0",
        ),
        (b"ROWS\n N c\nENDATA\n\xff", "the text is not UTF-8"),
    ] {
        assert!(rt; is_refused(rt.alloc(), text, words), "{words}");
    }
}
