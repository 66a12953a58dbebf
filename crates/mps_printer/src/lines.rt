//! Lines of a text, field by field.

ghost use Rattle.std.specs.Prelude.{◌≡◌, ◌++◌, ◌∷◌, [], IfOk, OnOk, string_bytes};
ghost use Rattle.std.specs.Fmt.{signed_decimal};
ghost use Rattle.mps_defs.specs.Numbers.{decimal_text};
ghost use Rattle.mps_defs.specs.CanonicalText.{bound_line, head, pair, triple, written_text};

use decimals::decimal_text;
use ip_defs::Memory;
use std::alloc::{AllocError, Global};

/// Adds one blank and a field.
fn push_field(text: &mut String, field: &str) -> Result<(), Memory>
    ensures { OnOk result (string_bytes text.new ≡ string_bytes text.old ++ 32 ∷ field.now) }
{
    text.push_str(" ")?;
    text.push_str(field)?;
    Ok(())
}

/// Adds the end of a line.
fn end_line(text: &mut String) -> Result<(), Memory>
    ensures { OnOk result (string_bytes text.new ≡ string_bytes text.old ++ 10 ∷ []) }
{
    text.push_str("\n")?;
    Ok(())
}

/// Adds the line of a section word.
pub fn push_head(text: &mut String, word: &str) -> Result<(), Memory>
    ensures { OnOk result (string_bytes text.new ≡ string_bytes text.old ++ written_text (head word.now)) }
{
    text.push_str(word)?;
    end_line(text)
}

/// Adds a data line of two fields.
pub fn push_pair(text: &mut String, first: &str, second: &str) -> Result<(), Memory>
    ensures { OnOk result (string_bytes text.new ≡ string_bytes text.old ++ written_text (pair first.now second.now)) }
{
    push_field(text, first)?;
    push_field(text, second)?;
    end_line(text)
}

/// Adds a data line of three fields.
pub fn push_triple(text: &mut String, first: &str, second: &str, third: &str) -> Result<(), Memory>
    ensures { OnOk result (string_bytes text.new ≡ string_bytes text.old ++ written_text (triple first.now second.now third.now)) }
{
    push_field(text, first)?;
    push_field(text, second)?;
    push_field(text, third)?;
    end_line(text)
}

/// Adds a data line of two names and `units / 10^decimals`.
pub fn push_amount(
    alloc: Global,
    text: &mut String,
    first: &str,
    second: &str,
    units: i128,
    decimals: u8,
) -> Result<(), Memory>
    ensures { OnOk result (string_bytes text.new ≡ string_bytes text.old
        ++ written_text (triple first.now second.now (decimal_text units decimals))) }
{
    let amount = decimal_text(alloc, units, decimals)?;
    push_triple(text, first, second, amount.as_str())
}

/// A whole number, written.
fn whole_text(alloc: Global, value: i64) -> Result<String, AllocError>
    ensures { IfOk result (λ s. string_bytes s ≡ signed_decimal value) }
{
    format!(in alloc; "{value}")
}

/// Adds the line of one bound of a column, of the kind `LO` or `UP`.
pub fn push_bound(
    alloc: Global,
    text: &mut String,
    kind: &str,
    name: &str,
    side: i64,
) -> Result<(), Memory>
    ensures { OnOk result (string_bytes text.new ≡ string_bytes text.old ++ written_text (bound_line kind.now name.now side)) }
{
    let number = whole_text(alloc, side)?;
    push_field(text, kind)?;
    push_field(text, "BND")?;
    push_field(text, name)?;
    push_field(text, number.as_str())?;
    end_line(text)
}
