//! Section lines and their order.

ghost use Rattle.std.specs.Prelude.{◌≡◌, ℕ, ◌∷◌, ◌||◌, List, None, Some, bytes_eq, map, not};
ghost use Rattle.std.specs.Option.{MatchOption};
ghost use Rattle.std.specs.List.{list_all};
ghost use Rattle.mps_defs.specs.Lists.{is_among, last_of};
ghost use Rattle.mps_defs.specs.Records.{Line, opening};
ghost use Rattle.mps_defs.specs.Faults.{is_before as is_before_of, may_come as may_come_of, section_place};
ghost use Rattle.mps_reader.specs.Internal.Progress.{IsTaken, Stands, section_word};

use crate::draft::{Draft, Taken};
use mps_defs::MpsError;

/// The sections of a text, in their order.
#[derive(Clone, Copy, Debug, PartialEq, Eq, PartialOrd, Ord)]
pub enum Section {
    Name,
    Rows,
    Columns,
    RightSides,
    Ranges,
    Bounds,
    End,
}

/// The section that a word begins.
fn section_of(word: &str) -> Option<Section>
    ensures { MatchOption result (section_place word.now ≡ None) (λ s. section_word s ≡ word.now) }
{
    match word {
        "NAME" => Some(Section::Name),
        "ROWS" => Some(Section::Rows),
        "COLUMNS" => Some(Section::Columns),
        "RHS" => Some(Section::RightSides),
        "RANGES" => Some(Section::Ranges),
        "BOUNDS" => Some(Section::Bounds),
        "ENDATA" => Some(Section::End),
        _ => None,
    }
}

/// The place of a section in the order.
fn order_of(section: Section) -> usize
    ensures { section_place (section_word section) ≡ Some result }
{
    match section {
        Section::Name => 0,
        Section::Rows => 1,
        Section::Columns => 2,
        Section::RightSides => 3,
        Section::Ranges => 4,
        Section::Bounds => 5,
        Section::End => 6,
    }
}

/// Whether a section is earlier in the order than another.
fn is_before(section: Section, later: Section) -> bool
    ensures { result ≡ is_before_of (section_word section) (section_word later) }
{
    order_of(section) < order_of(later)
}

/// Whether two sections are one.
fn is_same(section: Section, other: Section) -> bool
    ensures { result ≡ bytes_eq (section_word section) (section_word other) }
{
    order_of(section) == order_of(other)
}

/// Whether a section is among those before.
pub fn has_section(sections: &[Section], section: Section) -> bool
    ensures { result ≡ is_among (section_word section) (map section_word sections.now) }
{
    sections.iter().any(|other| is_same(section, *other))
}

/// Whether sections are all earlier in the order than another.
fn are_before(sections: &[Section], later: Section) -> bool
    ensures { result ≡ list_all (λ word. is_before_of word (section_word later)) (map section_word sections.now) }
{
    sections.iter().all(|section| is_before(*section, later))
}

/// Whether a section that another needs, where it comes later in the order, is among those before it.
fn has_needed(sections: &[Section], needed: Section, section: Section) -> bool
    ensures { result ≡ (not (is_before_of (section_word needed) (section_word section))
        || is_among (section_word needed) (map section_word sections.now)) }
{
    !is_before(needed, section) || has_section(sections, needed)
}

/// Whether a section may come after others: each of them is earlier in the order, and none that it needs is missing.
fn may_come(sections: &[Section], section: Section) -> bool
    ensures { result ≡ may_come_of (map section_word sections.now) (section_word section) }
{
    are_before(sections, section)
        && has_needed(sections, Section::Rows, section)
        && has_needed(sections, Section::Columns, section)
}

/// The last one of sections.
pub fn last_section(sections: &[Section]) -> Option<Section>
    ensures { result ≡ last_of sections.now }
{
    sections.last().copied()
}

/// Takes a section line. `UnknownSection` comes where its word is none of the seven, then `SectionOrder` where it may not come now.
pub fn take_section(draft: &mut Draft, line: u32, word: &str) -> Taken
    ensures { (before : List Line) (others : List (List ℕ)) → Stands before draft.old
        → IsTaken before (opening line (word.now ∷ others) word.now) draft.new result }
{
    let section = match section_of(word) {
        Some(section) => section,
        None => return Err(MpsError::UnknownSection { line }),
    };
    if !may_come(draft.sections.as_slice(), section) {
        return Err(MpsError::SectionOrder { line });
    }
    draft.sections.push(section)?;
    Ok(())
}
