//! Whether the text of a model can be read back.

ghost use Rattle.std.specs.Prelude.{◌≡◌, ◌==◌, ◌&&◌, ◌||◌};
ghost use Rattle.std.specs.List.{list_all, list_any};
ghost use Rattle.ip_defs.specs.Program.{is_crossed};
ghost use Rattle.mps_defs.specs.CanonicalText.{is_printable, is_printable_name};

use ip_defs::{Column, Parts, Row};
use ip_model::{IntModel, crossed};

/// The word of a marker line, which no name may be.
const MARKER: &str = "'MARKER'";

/// Whether a byte ends a field or a line.
fn is_separator(byte: u8) -> bool
    ensures { result ≡ ((byte == 32) || (byte == 9) || (byte == 13) || (byte == 10)) }
{
    byte == b' ' || byte == b'\t' || byte == b'\r' || byte == b'\n'
}

/// Whether some byte ends a field or a line.
fn has_separator(name: &[u8]) -> bool
    ensures { result ≡ list_any (λ b. (b == 32) || (b == 9) || (b == 13) || (b == 10)) name.now }
{
    name.iter().any(|byte| is_separator(*byte))
}

/// Whether a name can be read back from a line.
fn is_name(name: &str) -> bool
    ensures { result ≡ is_printable_name name.now }
{
    !name.is_empty() && name != MARKER && !has_separator(name.as_bytes())
}

/// Whether some row has both sides with the low side above the high side.
fn has_crossed_row(model: &IntModel) -> bool
    ensures { result ≡ list_any is_crossed model.now.rows }
{
    crossed(model).is_some()
}

/// Whether each name of a column can be read back.
fn have_column_names(columns: &[Column]) -> bool
    ensures { result ≡ list_all (λ c. is_printable_name c.name) columns.now }
{
    columns.iter().all(|column| is_name(column.name.as_str()))
}

/// Whether each name of a row can be read back.
fn have_row_names(rows: &[Row]) -> bool
    ensures { result ≡ list_all (λ r. is_printable_name r.name) rows.now }
{
    rows.iter().all(|row| is_name(row.name.as_str()))
}

/// Whether each name of a program can be read back.
fn have_names(parts: &Parts) -> bool
    ensures { result ≡ (is_printable_name parts.now.objective
        && list_all (λ c. is_printable_name c.name) parts.now.columns
        && list_all (λ r. is_printable_name r.name) parts.now.rows) }
{
    is_name(parts.objective.as_str())
        && have_column_names(parts.columns.as_slice())
        && have_row_names(parts.rows.as_slice())
}

/// Whether the canonical text of a model can be read back: no row has both sides with the low side above the high side, and each name
/// has a byte at least, has no blank, tab, CR or LF, and is not the word of a marker line.
pub fn printable(model: &IntModel) -> bool
    ensures { result ≡ is_printable model.now }
{
    !has_crossed_row(model) && have_names(model.parts())
}
