//! What a line of a text begins with.

ghost use Rattle.std.specs.Prelude.{◌≡◌};
ghost use Rattle.mps_defs.specs.Records.{begins_with, is_blank};

/// Whether a line begins with a blank or a tab, as a data line does.
pub fn is_indented(line: &str) -> bool
    ensures { result ≡ begins_with is_blank line.now }
{
    match line.as_bytes() {
        [] => false,
        [first, ..] => *first == b' ' || *first == b'\t',
    }
}
