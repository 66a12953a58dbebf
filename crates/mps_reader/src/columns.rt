//! Lines of COLUMNS: markers, and columns with their entries.

ghost use Rattle.std.specs.Prelude.{◌≡◌, ◌==◌, ◌∷◌, ◌&&◌, ◌||◌, ℕ, [], List, IfOk, None, OnOk, bytes_eq, codes, length, map, not, position};
ghost use Rattle.std.specs.Prelude.{slice_index_or, string_bytes, true, false};
ghost use Rattle.std.specs.Option.{option_map_or};
ghost use Rattle.mps_defs.specs.Lists.{is_among};
ghost use Rattle.ip_defs.specs.Lists.{when};
ghost use Rattle.mps_defs.specs.Records.{Line, column_name, is_marker as is_marker_of, items_of, words_of, item};
ghost use Rattle.mps_defs.specs.Faults.{is_split, is_right_marker};
ghost use Rattle.mps_defs.specs.declared.reading.MpsError.TheVariants as Out;
ghost use Rattle.mps_reader.specs.Internal.Progress.{BoundsStand, ColumnsStand, IsTaken, Stands};
ghost use Rattle.mps_reader.specs.Internal.Taking.{IsColumnAdded, IsColumnOpen, IsDone, IsMarked};

use crate::draft::{ColumnDraft, ColumnTable, Draft, Taken, is_at};
use crate::entries::{Owner, take_entries};
use mps_defs::MpsError;
use std::alloc::{AllocError, Global};

/// Whether the fields of a line are those of a marker.
fn is_marker(fields: &[&str]) -> bool
    ensures { result ≡ bytes_eq (slice_index_or (map (λ f. f.now) fields.now) 1 []) (codes "'MARKER'") }
{
    fields.len() > 1 && fields[1] == "'MARKER'"
}

/// Whether a marker begins what is not in force, or ends what is.
fn is_right(in_force: bool, word: &str) -> bool
    ensures { result ≡ is_right_marker in_force word.now }
{
    (word == "'INTORG'" && !in_force) || (word == "'INTEND'" && in_force)
}

/// Takes a marker: Marker where it begins what is in force, ends what is not, or is none.
fn take_marker(columns: &mut ColumnTable, line: u32, word: &str) -> Taken
    ensures { IsDone (when (not (is_right_marker columns.old.in_integers word.now)) (Out.Marker line))
        (λ _. IsMarked columns.old columns.new word.now) result }
{
    if !is_right(columns.in_integers, word) {
        return Err(MpsError::Marker { line });
    }
    columns.in_integers = word == "'INTORG'";
    columns.open = None;
    Ok(())
}

/// Takes a marker line: FieldCount comes first.
fn take_marker_line(draft: &mut Draft, line: u32, fields: &[&str]) -> Taken
    ensures { (before : List Line) → Stands before draft.old → is_among (codes "COLUMNS") (words_of before) ≡ true
        → is_among (codes "ROWS") (words_of before) ≡ true
        → is_marker_of (item (codes "COLUMNS") line (map (λ f. f.now) fields.now)) ≡ true
        → IsTaken before (item (codes "COLUMNS") line (map (λ f. f.now) fields.now)) draft.new result }
{
    match fields {
        [_, _, word] => take_marker(&mut draft.columns, line, word),
        _ => Err(MpsError::FieldCount { line }),
    }
}

/// Begins a column, and answers its number.
fn add_column(alloc: Global, columns: &mut ColumnTable, name: &str) -> Result<usize, AllocError>
    requires { position (λ k. bytes_eq name.now (string_bytes k)) columns.old.names.keys ≡ None }
    ensures added { OnOk result (IsColumnAdded name.now columns.old columns.new) }
    ensures number { IfOk result (λ j. j ≡ length columns.old.columns.items) }
{
    let number = columns.columns.len();
    columns.names.insert(String::from_str(alloc, name)?)?;
    columns.columns.push(ColumnDraft {
        is_integer: columns.in_integers,
        lower: None,
        upper: None,
    })?;
    columns.open = Some(number);
    Ok(number)
}

/// The number of the column of a line, which begins it or goes on with it: SplitColumn where another line came between.
fn open_column(
    alloc: Global,
    columns: &mut ColumnTable,
    line: u32,
    name: &str,
) -> Result<usize, MpsError>
    ensures { (before : List Line) (fields : List (List ℕ)) → ColumnsStand before columns.old
        → BoundsStand before columns.old.columns.items → items_of (codes "BOUNDS") before ≡ []
        → is_marker_of (item (codes "COLUMNS") line fields) ≡ false → column_name (item (codes "COLUMNS") line fields) ≡ name.now
        → IsDone (when (is_split before (item (codes "COLUMNS") line fields)) (Out.SplitColumn line))
        (λ number. IsColumnOpen before (item (codes "COLUMNS") line fields) number columns.new) result }
{
    match columns.names.get_index_of(name) {
        Some(number) => {
            if is_at(columns.open, number) {
                Ok(number)
            } else {
                Err(MpsError::SplitColumn { line })
            }
        }
        None => Ok(add_column(alloc, columns, name)?),
    }
}

/// Whether a line of a column has the fields of one or two entries.
fn has_entries(fields: &[&str]) -> bool
    ensures { result ≡ (length fields.now == 3) || (length fields.now == 5) }
{
    fields.len() == 3 || fields.len() == 5
}

/// Takes a line with one or two entries of a column: FieldCount comes first, then SplitColumn, then what is wrong with each entry.
fn take_entry_line(alloc: Global, draft: &mut Draft, line: u32, fields: &[&str]) -> Taken
    ensures { (before : List Line) → Stands before draft.old → is_among (codes "COLUMNS") (words_of before) ≡ true
        → is_among (codes "ROWS") (words_of before) ≡ true → items_of (codes "BOUNDS") before ≡ []
        → is_marker_of (item (codes "COLUMNS") line (map (λ f. f.now) fields.now)) ≡ false
        → IsTaken before (item (codes "COLUMNS") line (map (λ f. f.now) fields.now)) draft.new result }
{
    if !has_entries(fields) {
        return Err(MpsError::FieldCount { line });
    }
    let number = open_column(alloc, &mut draft.columns, line, fields[0])?;
    take_entries(&mut draft.rows, Owner::Column(number), line, &fields[1..])
}

/// Takes a line of COLUMNS: a marker, or a column with one or two entries. FieldCount comes first, then for a marker Marker, else
/// SplitColumn, then what is wrong with each entry.
pub fn take_column_line(alloc: Global, draft: &mut Draft, line: u32, fields: &[&str]) -> Taken
    ensures { (before : List Line) → Stands before draft.old → is_among (codes "COLUMNS") (words_of before) ≡ true
        → is_among (codes "ROWS") (words_of before) ≡ true → items_of (codes "BOUNDS") before ≡ []
        → IsTaken before (item (codes "COLUMNS") line (map (λ f. f.now) fields.now)) draft.new result }
{
    if is_marker(fields) {
        take_marker_line(draft, line, fields)
    } else {
        take_entry_line(alloc, draft, line, fields)
    }
}
