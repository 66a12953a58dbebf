//! ROWS, RHS and RANGES.

ghost use Rattle.std.specs.Prelude.{◌≡◌, ◌++◌, None, OnOk, Some, flat_map, map, string_bytes};
ghost use Rattle.mps_defs.specs.CanonicalText.{constant_line, is_equation as is_equation_of, is_from_below as is_from_below_of};
ghost use Rattle.mps_defs.specs.CanonicalText.{kind_text as kind_text_of, range_line, rhs_line, right_side as right_side_of, written_text};
ghost use Rattle.mps_printer.specs.Internal.Sections.{kind_line, lines_text, part_lines, range_section, row_section, side_section};

use crate::lines::{push_amount, push_head, push_pair, push_triple};
use ip_defs::{Memory, Parts, Row};
use std::alloc::Global;

/// A part of a row that is written on lines of its own: its right side in RHS, or its range in RANGES.
#[derive(Clone, Copy, Debug, PartialEq, Eq)]
pub enum RowPart {
    RightSide,
    Range,
}

/// Whether a row has both sides, and they are equal.
fn is_equation(row: &Row) -> bool
    ensures { result ≡ is_equation_of row.now }
{
    match (row.low, row.high) {
        (Some(low), Some(high)) => low == high,
        _ => false,
    }
}

/// Whether a row has its low side alone.
fn is_from_below(row: &Row) -> bool
    ensures { result ≡ is_from_below_of row.now }
{
    row.low.is_some() && row.high.is_none()
}

/// The kind of a row: E where both sides are equal, G where only the low side is there, else L.
fn kind_text(row: &Row) -> &'static str
    ensures { result.now ≡ kind_text_of row.now }
{
    if is_equation(row) {
        "E"
    } else if is_from_below(row) {
        "G"
    } else {
        "L"
    }
}

/// The right side of a row: the low side of G, else the high side.
fn right_side(row: &Row) -> Option<i64>
    ensures { result ≡ right_side_of row.now }
{
    if is_from_below(row) {
        row.low
    } else {
        row.high
    }
}

/// Adds the kind and the name of a row.
fn push_kind(text: &mut String, row: &Row) -> Result<(), Memory>
    ensures { OnOk result (string_bytes text.new ≡ string_bytes text.old ++ written_text (kind_line row.now)) }
{
    push_pair(text, kind_text(row), row.name.as_str())
}

/// Adds the kind and the name of each row.
fn push_kinds(text: &mut String, rows: &[Row]) -> Result<(), Memory>
    ensures { OnOk result (string_bytes text.new ≡ string_bytes text.old ++ lines_text (map kind_line rows.now)) }
{
    for row in rows {
        push_kind(text, row)?;
    }
    Ok(())
}

/// Adds NAME, and ROWS with the objective and each row.
pub fn push_row_section(text: &mut String, parts: &Parts) -> Result<(), Memory>
    ensures { OnOk result (string_bytes text.new ≡ string_bytes text.old ++ lines_text (row_section parts.now)) }
{
    push_head(text, "NAME")?;
    push_head(text, "ROWS")?;
    push_pair(text, "N", parts.objective.as_str())?;
    push_kinds(text, parts.rows.as_slice())
}

/// Adds the negated constant as the right side of the objective, where it is not 0.
fn push_constant(alloc: Global, text: &mut String, parts: &Parts) -> Result<(), Memory>
    ensures { OnOk result (string_bytes text.new ≡ string_bytes text.old ++ lines_text (constant_line parts.now)) }
{
    if parts.constant == 0 {
        return Ok(());
    }
    let units = -i128::from(parts.constant);
    let name = parts.objective.as_str();
    push_amount(alloc, text, "RHS", name, units, parts.cost_decimals)
}

/// Adds the right side of a row: nothing for 0, and 1e30 for a row without sides.
fn push_side(alloc: Global, text: &mut String, row: &Row) -> Result<(), Memory>
    ensures { OnOk result (string_bytes text.new ≡ string_bytes text.old ++ lines_text (rhs_line row.now)) }
{
    let name = row.name.as_str();
    match right_side(row) {
        Some(0) => Ok(()),
        Some(side) => push_amount(alloc, text, "RHS", name, i128::from(side), row.decimals),
        None => push_triple(text, "RHS", name, "1e30"),
    }
}

/// Adds the range of a row, its high side minus its low side, where it has two different sides.
fn push_range(alloc: Global, text: &mut String, row: &Row) -> Result<(), Memory>
    ensures { OnOk result (string_bytes text.new ≡ string_bytes text.old ++ lines_text (range_line row.now)) }
{
    match (row.low, row.high) {
        (Some(low), Some(high)) if low != high => {
            let units = i128::from(high) - i128::from(low);
            push_amount(alloc, text, "RNG", row.name.as_str(), units, row.decimals)
        }
        _ => Ok(()),
    }
}

/// Adds the lines of a part of a row.
fn push_part(alloc: Global, text: &mut String, row: &Row, part: RowPart) -> Result<(), Memory>
    ensures { OnOk result (string_bytes text.new ≡ string_bytes text.old ++ lines_text (part_lines part row.now)) }
{
    match part {
        RowPart::RightSide => push_side(alloc, text, row),
        RowPart::Range => push_range(alloc, text, row),
    }
}

/// Adds the lines of a part of each row.
fn push_parts(alloc: Global, text: &mut String, rows: &[Row], part: RowPart) -> Result<(), Memory>
    ensures { OnOk result (string_bytes text.new ≡ string_bytes text.old ++ lines_text (flat_map (part_lines part) rows.now)) }
{
    for row in rows {
        push_part(alloc, text, row, part)?;
    }
    Ok(())
}

/// Adds RHS.
pub fn push_side_section(alloc: Global, text: &mut String, parts: &Parts) -> Result<(), Memory>
    ensures { OnOk result (string_bytes text.new ≡ string_bytes text.old ++ lines_text (side_section parts.now)) }
{
    push_head(text, "RHS")?;
    push_constant(alloc, text, parts)?;
    push_parts(alloc, text, parts.rows.as_slice(), RowPart::RightSide)
}

/// Adds RANGES.
pub fn push_range_section(alloc: Global, text: &mut String, parts: &Parts) -> Result<(), Memory>
    ensures { OnOk result (string_bytes text.new ≡ string_bytes text.old ++ lines_text (range_section parts.now)) }
{
    push_head(text, "RANGES")?;
    push_parts(alloc, text, parts.rows.as_slice(), RowPart::Range)
}
