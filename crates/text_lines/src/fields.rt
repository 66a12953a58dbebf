//! The fields of a line.

ghost use Rattle.std.specs.Prelude.{◌≡◌, ◌==◌, ◌++◌, IfOk, OnOk, filter, length, map, nat_le};
ghost use Rattle.std.specs.List.{slice_split};
ghost use Rattle.mps_defs.specs.Records.{fields_of};

use std::alloc::{AllocError, Global};

/// The parts of a text between its blanks.
fn words_in(alloc: Global, text: &str) -> Result<Vec<&str>, AllocError>
    ensures { IfOk result (λ v. map (λ x. x.now) v.items ≡ slice_split (λ b. b == 32) text.now) }
{
    text.split(' ').collect(alloc)
}

/// The parts of a text between its tabs.
fn parts_in(alloc: Global, text: &str) -> Result<Vec<&str>, AllocError>
    ensures { IfOk result (λ v. map (λ x. x.now) v.items ≡ slice_split (λ b. b == 9) text.now) }
{
    text.split('\t').collect(alloc)
}

/// Adds the parts of a word that are not empty.
fn push_parts<'a>(alloc: Global, word: &'a str, fields: &mut Vec<&'a str>) -> Result<(), AllocError>
    ensures { OnOk result (map (λ x. x.now) fields.new.items ≡ map (λ x. x.now) fields.old.items
        ++ filter (λ f. nat_le 1 (length f)) (slice_split (λ b. b == 9) word.now)) }
{
    let parts = parts_in(alloc, word)?;
    for part in parts.as_slice() {
        if !part.is_empty() {
            fields.push(part)?;
        }
    }
    Ok(())
}

/// The fields of a line, which blanks and tabs separate.
pub fn fields_of(alloc: Global, line: &str) -> Result<Vec<&str>, AllocError>
    ensures { IfOk result (λ v. map (λ x. x.now) v.items ≡ fields_of line.now) }
{
    let words = words_in(alloc, line)?;
    let mut fields = Vec::new(alloc);
    for word in words.as_slice() {
        push_parts(alloc, word, &mut fields)?;
    }
    Ok(fields)
}
