//! Lines of ROWS.

ghost use Rattle.std.specs.Prelude.{◌≡◌, ◌∷◌, [], List, None, Some, OnOk, true, false, codes, map, bytes_eq, position, string_bytes};
ghost use Rattle.std.specs.Option.{MatchOption};
ghost use Rattle.mps_defs.specs.Lists.{is_among, last_of, where_true};
ghost use Rattle.std.specs.Option.{option_or};
ghost use Rattle.mps_defs.specs.Records.{Line, words_of, item};
ghost use Rattle.mps_reader.specs.declared.draft.Draft.{Draft as DraftOf};
ghost use Rattle.mps_reader.specs.Internal.Progress.{IsNewRow, IsTaken, IsWithRow, Stands, kind_word};

use crate::draft::{Draft, RowDraft, RowKind, RowTable, Taken};
use mps_defs::MpsError;
use std::alloc::{AllocError, Global};

/// The kind of a row that a word names.
fn kind_of(word: &str) -> Option<RowKind>
    ensures { MatchOption result (is_among word.now (codes "N" ∷ codes "L" ∷ codes "G" ∷ codes "E" ∷ []) ≡ false) (λ k. kind_word k
        ≡ word.now) }
{
    match word {
        "N" => Some(RowKind::Free),
        "L" => Some(RowKind::AtMost),
        "G" => Some(RowKind::AtLeast),
        "E" => Some(RowKind::Equal),
        _ => None,
    }
}

/// A row of which nothing is written yet.
fn new_row(alloc: Global, kind: RowKind) -> RowDraft
    ensures { IsNewRow kind result }
{
    RowDraft {
        kind,
        entries: Vec::new(alloc),
        right_side: None,
        range: None,
        decimals: 0,
    }
}

/// The objective once a row of a kind comes at a place: the first free row.
fn objective_with(objective: Option<usize>, kind: RowKind, place: usize) -> Option<usize>
    ensures { result ≡ option_or objective (where_true (bytes_eq (kind_word kind) (codes "N")) place) }
{
    match (objective, kind) {
        (None, RowKind::Free) => Some(place),
        _ => objective,
    }
}

/// Adds a row with a new name. The first free one is the objective.
fn add_row(alloc: Global, table: &mut RowTable, kind: RowKind, name: &str) -> Result<(), AllocError>
    requires { position (λ k. bytes_eq name.now (string_bytes k)) table.old.names.keys ≡ None }
    ensures { OnOk result (IsWithRow table.old table.new kind name.now) }
{
    table.objective = objective_with(table.objective, kind, table.rows.len());
    table.rows.push(new_row(alloc, kind))?;
    table.names.insert(String::from_str(alloc, name)?)?;
    Ok(())
}

/// Takes a row of a kind and a name. `RowKind` comes first, then `TwiceRow`, then `Marker` where the name is that of a marker.
fn take_row(alloc: Global, table: &mut RowTable, line: u32, kind: &str, name: &str) -> Taken
    ensures { (before : List Line) (d : DraftOf) → d.rows ≡ table.old → Stands before d
        → is_among (codes "ROWS") (words_of before) ≡ true → last_of (words_of before) ≡ Some (codes "ROWS")
        → IsTaken before (item (codes "ROWS") line (kind.now ∷ name.now ∷ [])) (record d { rows = table.new }) result }
{
    let kind = match kind_of(kind) {
        Some(kind) => kind,
        None => return Err(MpsError::RowKind { line }),
    };
    if table.names.get_index_of(name).is_some() {
        return Err(MpsError::TwiceRow { line });
    }
    if name == "'MARKER'" {
        return Err(MpsError::Marker { line });
    }
    add_row(alloc, table, kind, name)?;
    Ok(())
}

/// Takes a line of ROWS: a kind and a name. `FieldCount` comes before the faults of the row.
pub fn take_row_line(alloc: Global, draft: &mut Draft, line: u32, fields: &[&str]) -> Taken
    ensures { (before : List Line) → Stands before draft.old → is_among (codes "ROWS") (words_of before) ≡ true
        → last_of (words_of before) ≡ Some (codes "ROWS")
        → IsTaken before (item (codes "ROWS") line (map (λ f. f.now) fields.now)) draft.new result }
{
    match fields {
        [kind, name] => take_row(alloc, &mut draft.rows, line, kind, name),
        _ => Err(MpsError::FieldCount { line }),
    }
}
