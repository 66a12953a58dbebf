//! Lines of RHS and RANGES.

ghost use Rattle.std.specs.Prelude.{◌≡◌, IfOk, OnOk, ◌&&◌, ◌∷◌, [], nat_le, true, false, List, length, map, codes};
ghost use Rattle.std.specs.Option.{MatchOption};
ghost use Rattle.mps_defs.specs.Lists.{is_among};
ghost use Rattle.mps_defs.specs.Records.{Line, words_of, item};
ghost use Rattle.mps_reader.specs.Internal.Progress.{IsTaken, Stands, section_word};
ghost use Rattle.mps_reader.specs.Internal.Taking.{IsSetKept, IsSetLine, set_owner};

use crate::draft::{Draft, Sets, Taken};
use crate::entries::{Owner, take_entries};
use crate::kept_sets::keep_set;
use crate::sections::Section;
use mps_defs::MpsError;
use std::alloc::{AllocError, Global};

/// The set that a line names, the empty one where it names none, and its fields for entries. `None` means that the number of
/// fields is none of 2 to 5.
fn parts_of<'a>(fields: &'a [&'a str]) -> Option<(&'a str, &'a [&'a str])>
    ensures { MatchOption result (nat_le 2 (length fields.now) && nat_le (length fields.now) 5
        ≡ false) (λ p. IsSetLine (map (λ f. f.now) fields.now) p.0.now (map (λ f. f.now) p.1.now)) }
{
    match fields.len() {
        2 | 4 => Some(("", fields)),
        3 | 5 => Some((fields[0], &fields[1..])),
        _ => None,
    }
}

/// The owner of the entries of a set, whose name is kept where it is the first.
fn owner_of(
    alloc: Global,
    sets: &mut Sets,
    section: Section,
    set: &str,
) -> Result<Owner, AllocError>
    ensures owner { IfOk result (λ owner. owner ≡ set_owner section sets.old set.now) }
    ensures kept { OnOk result (IsSetKept section set.now sets.old sets.new) }
{
    match section {
        Section::Ranges => Ok(Owner::Ranges(keep_set(alloc, &mut sets.ranges, set)?)),
        _ => Ok(Owner::RightSides(keep_set(alloc, &mut sets.right_sides, set)?)),
    }
}

/// Takes a line of RHS or RANGES: a set, where the number of fields is odd, then one or two entries. FieldCount comes first, then what
/// is wrong with each entry.
pub fn take_set_line(
    alloc: Global,
    draft: &mut Draft,
    section: Section,
    line: u32,
    fields: &[&str],
) -> Taken
    ensures { (before : List Line) → Stands before draft.old
        → is_among (section_word section) (codes "RHS" ∷ codes "RANGES" ∷ []) ≡ true
        → is_among (section_word section) (words_of before) ≡ true → is_among (codes "ROWS") (words_of before) ≡ true
        → IsTaken before (item (section_word section) line (map (λ f. f.now) fields.now)) draft.new result }
{
    let (set, entries) = match parts_of(fields) {
        Some(parts) => parts,
        None => return Err(MpsError::FieldCount { line }),
    };
    let owner = owner_of(alloc, &mut draft.sets, section, set)?;
    take_entries(&mut draft.rows, owner, line, entries)
}
