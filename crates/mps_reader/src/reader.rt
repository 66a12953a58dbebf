//! One walk through the lines of a text, and the model at its end.

ghost use Rattle.std.specs.Prelude.{◌≡◌, ℕ, ◌≤◌, ◌^◌, IfOk, List, None, false, codes, length, map};
ghost use Rattle.std.specs.List.{list_any};
ghost use Rattle.mps_defs.specs.Lists.{is_among};
ghost use Rattle.mps_defs.specs.Records.{Line, lines_of, is_end_line, without_return, words_of, item};
ghost use Rattle.mps_defs.specs.Faults.{ReadMeets};
ghost use Rattle.mps_defs.specs.TextModels.{IsHow};
ghost use Rattle.ip_model.specs.Sizes.{first_crossed};
ghost use Rattle.mps_reader.specs.Internal.Progress.{IsTaken, Stands};
ghost use Rattle.mps_reader.specs.Internal.Reading.{IsDraftOf, IsLineTaken, last_section as last_word_of, lines_by};

use crate::bounds::take_bound_line;
use crate::columns::take_column_line;
use crate::draft::{Draft, Taken};
use crate::lines::is_indented;
use crate::models::model_of;
use crate::right_sides::take_set_line;
use crate::rows::take_row_line;
use crate::sections::{Section, last_section, take_section};
use ip_model::IntModel;
use mps_defs::{How, MpsError};
use std::alloc::Global;
use text_lines::{cut_return, fields_of, is_comment, lines_in};

/// Takes a data line, which belongs to the last section. `SectionOrder` comes where ROWS is missing; the other faults are those of its
/// section.
fn take_item(alloc: Global, draft: &mut Draft, line: u32, fields: &[&str]) -> Taken
    ensures { (before : List Line) → Stands before draft.old → is_among (codes "ENDATA") (words_of before) ≡ false
        → IsTaken before (item (last_word_of (words_of before)) line (map (λ f. f.now) fields.now)) draft.new result }
{
    let section = match last_section(draft.sections.as_slice()) {
        Some(section) => section,
        None => return Err(MpsError::SectionOrder { line }),
    };
    match section {
        Section::Name => Err(MpsError::SectionOrder { line }),
        Section::Rows => take_row_line(alloc, draft, line, fields),
        Section::Columns => take_column_line(alloc, draft, line, fields),
        Section::RightSides => take_set_line(alloc, draft, Section::RightSides, line, fields),
        Section::Ranges => take_set_line(alloc, draft, Section::Ranges, line, fields),
        Section::Bounds => take_bound_line(alloc, draft, line, fields),
        Section::End => Err(MpsError::SectionOrder { line }),
    }
}

/// Takes a line of a text, and answers whether it is the ENDATA line. Comments and lines without a field are skipped.
fn take_line(alloc: Global, draft: &mut Draft, number: u32, text: &str) -> Result<bool, MpsError>
    ensures { (ps : List (ℕ × List ℕ)) → Stands (lines_by ps) draft.old → list_any is_end_line ps ≡ false
        → IsLineTaken ps (number, without_return text.now) draft.new result }
{
    let text = cut_return(text);
    if is_comment(text) {
        return Ok(false);
    }
    let fields = fields_of(alloc, text)?;
    let word = match fields.first() {
        Some(word) => word,
        None => return Ok(false),
    };
    if is_indented(text) {
        return match take_item(alloc, draft, number, fields.as_slice()) {
            Ok(()) => Ok(false),
            Err(error) => Err(error),
        };
    }
    match take_section(draft, number, word) {
        Ok(()) => Ok(*word == "ENDATA"),
        Err(error) => Err(error),
    }
}

/// Goes once through the lines of a text, up to the ENDATA line. The error is the first fault of the lines.
fn draft_of(alloc: Global, text: &str) -> Result<Draft, MpsError>
    requires { length text.now ≤ 2 ^ 31 }
    ensures { IsDraftOf (lines_of text.now) result }
{
    let lines = lines_in(alloc, text)?;
    let mut draft = Draft::new(alloc);
    let mut number: u32 = 0;
    for line in lines.as_slice() {
        number += 1;
        let ended = match take_line(alloc, &mut draft, number, line) {
            Ok(ended) => ended,
            Err(error) => return Err(error),
        };
        if ended {
            return Ok(draft);
        }
    }
    Ok(draft)
}

/// The model of an MPS text, or its first refusal. A text that is not UTF-8 is refused first; then the first line with a fault, then a
/// text without ENDATA, then one without an objective, then the columns by number, then the limits. `Memory` alone says nothing of the
/// text. No row of the model has its lower side above its upper side.
pub fn read(alloc: Global, text: &[u8], how: How) -> Result<IntModel, MpsError>
    requires length { length text.now ≤ 2 ^ 31 }
    requires how { IsHow how }
    ensures model { ReadMeets text.now how result }
    ensures uncrossed { IfOk result (λ m. first_crossed m ≡ None) }
{
    match str::from_utf8(text) {
        Ok(text) => match draft_of(alloc, text) {
            Ok(draft) => model_of(alloc, &draft, how),
            Err(error) => Err(error),
        },
        Err(_) => Err(MpsError::NotUtf8),
    }
}
