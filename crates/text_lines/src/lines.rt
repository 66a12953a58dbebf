//! The lines of a text, and what one begins with.

ghost use Rattle.std.specs.Prelude.{◌≡◌, IfOk, map};
ghost use Rattle.std.specs.List.{slice_split};
ghost use Rattle.mps_defs.specs.Records.{begins_with, is_line_end, is_star, without_return};

use std::alloc::{AllocError, Global};

/// The lines of a text, in order: what stands between its line feeds.
pub fn lines_in(alloc: Global, text: &str) -> Result<Vec<&str>, AllocError>
    ensures { IfOk result (λ v. map (λ x. x.now) v.items ≡ slice_split is_line_end text.now) }
{
    text.split('\n').collect(alloc)
}

/// A line without the one carriage return that may stand at its end.
pub fn cut_return(line: &str) -> &str
    ensures { result.now ≡ without_return line.now }
{
    match line.strip_suffix('\r') {
        Some(front) => front,
        None => line,
    }
}

/// Whether a text begins with a star, as a comment does.
pub fn is_comment(text: &str) -> bool
    ensures { result ≡ begins_with is_star text.now }
{
    match text.as_bytes() {
        [] => false,
        [first, ..] => *first == b'*',
    }
}
