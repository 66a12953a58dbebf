//! COLUMNS and BOUNDS.

ghost use Rattle.std.specs.Prelude.{◌≡◌, ◌<◌, ◌++◌, ◌∷◌, OnOk, flat_map, string_bytes, length, ℕ};
ghost use Rattle.std.specs.List.{enumerate_from};
ghost use Rattle.ip_defs.specs.Limits.{IsWithinLimits, index_at};
ghost use Rattle.mps_defs.specs.CanonicalText.{column_block, triple, value_text};
ghost use Rattle.mps_printer.specs.Internal.Entries.{column_entries, entry_line};
ghost use Rattle.mps_printer.specs.Internal.Sections.{bound_lines, bound_section, column_section, lines_text};

use crate::column_entries::entries_by_column;
use crate::lines::{push_amount, push_bound, push_head, push_triple};
use ip_defs::{Coefs, Column, Memory, Parts, Row};
use std::alloc::Global;

/// Adds a line for each coefficient of a column, each with the number of its row.
fn push_entries(
    alloc: Global,
    text: &mut String,
    name: &str,
    rows: &[Row],
    entries: &[(u32, i64)],
) -> Result<(), Memory>
    requires { (i : ℕ) → i < length entries.now → index_at entries.now i < length rows.now }
    ensures { OnOk result (string_bytes text.new ≡ string_bytes text.old
        ++ lines_text (flat_map (entry_line name.now rows.now) entries.now)) }
{
    for (i, coefficient) in entries {
        let row = &rows[*i as usize];
        let units = i128::from(*coefficient);
        push_amount(alloc, text, name, row.name.as_str(), units, row.decimals)?;
    }
    Ok(())
}

/// Adds the lines of a column: its cost, also where it is 0, and its coefficients.
fn push_block(
    alloc: Global,
    text: &mut String,
    parts: &Parts,
    column: &Column,
    entries: &[(u32, i64)],
) -> Result<(), Memory>
    requires { (i : ℕ) → i < length entries.now → index_at entries.now i < length parts.now.rows }
    ensures { OnOk result (string_bytes text.new ≡ string_bytes text.old
        ++ lines_text (triple column.now.name parts.now.objective (value_text parts.now column.now.cost)
        ∷ flat_map (entry_line column.now.name parts.now.rows) entries.now)) }
{
    let name = column.name.as_str();
    let units = i128::from(column.cost);
    push_amount(
        alloc,
        text,
        name,
        parts.objective.as_str(),
        units,
        parts.cost_decimals,
    )?;
    push_entries(alloc, text, name, parts.rows.as_slice(), entries)
}

/// Adds the lines of each column.
fn push_blocks(alloc: Global, text: &mut String, parts: &Parts) -> Result<(), Memory>
    requires { IsWithinLimits parts.now }
    ensures { OnOk result (string_bytes text.new ≡ string_bytes text.old
        ++ lines_text (flat_map (column_block parts.now) (enumerate_from 0 parts.now.columns))) }
{
    let lists = entries_by_column(alloc, parts)?;
    for (j, column) in parts.columns.as_slice().iter().enumerate() {
        push_block(alloc, text, parts, column, lists[j].as_slice())?;
    }
    Ok(())
}

/// Adds COLUMNS, with the two marker lines of integer columns where there is a column.
pub fn push_column_section(alloc: Global, text: &mut String, parts: &Parts) -> Result<(), Memory>
    requires { IsWithinLimits parts.now }
    ensures { OnOk result (string_bytes text.new ≡ string_bytes text.old ++ lines_text (column_section parts.now)) }
{
    push_head(text, "COLUMNS")?;
    if parts.columns.as_slice().is_empty() {
        return Ok(());
    }
    push_triple(text, "M", "'MARKER'", "'INTORG'")?;
    push_blocks(alloc, text, parts)?;
    push_triple(text, "M", "'MARKER'", "'INTEND'")
}

/// Adds the two bounds of a column.
fn push_bounds_of(alloc: Global, text: &mut String, column: &Column) -> Result<(), Memory>
    ensures { OnOk result (string_bytes text.new ≡ string_bytes text.old ++ lines_text (bound_lines column.now)) }
{
    let name = column.name.as_str();
    push_bound(alloc, text, "LO", name, column.lo)?;
    push_bound(alloc, text, "UP", name, column.hi)
}

/// Adds the two bounds of each column.
fn push_bounds(alloc: Global, text: &mut String, columns: &[Column]) -> Result<(), Memory>
    ensures { OnOk result (string_bytes text.new ≡ string_bytes text.old ++ lines_text (flat_map bound_lines columns.now)) }
{
    for column in columns {
        push_bounds_of(alloc, text, column)?;
    }
    Ok(())
}

/// Adds BOUNDS.
pub fn push_bound_section(alloc: Global, text: &mut String, parts: &Parts) -> Result<(), Memory>
    ensures { OnOk result (string_bytes text.new ≡ string_bytes text.old ++ lines_text (bound_section parts.now)) }
{
    push_head(text, "BOUNDS")?;
    push_bounds(alloc, text, parts.columns.as_slice())
}
