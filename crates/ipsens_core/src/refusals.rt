//! The printed line of a file that is refused at a numbered place.

ghost use Rattle.std.specs.Prelude.{◌≡◌, ◌++◌, IfOk, string_bytes};
ghost use Rattle.ipsens_core.specs.Refusals.{at_number, refused};

use ip_defs::Memory;
use std::alloc::Global;

/// The line of a file that is refused: the word of the file and of its fault, the kind of the place of the fault, and its number.
pub fn refused_at(
    alloc: Global,
    file: &str,
    word: &str,
    kind: &str,
    number: u64,
) -> Result<String, Memory>
    ensures { IfOk result (λ s. string_bytes s ≡ refused file.now (word.now ++ at_number kind.now number)) }
{
    Ok(format!(in alloc; "refused {file} {word} {kind} {number}\n")?)
}
