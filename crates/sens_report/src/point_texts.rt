//! The printed texts of points: the cost, and the value of each column.

ghost use Rattle.std.specs.Prelude.{◌≡◌, ◌++◌, IfOk, OnOk, codes, flat_map, length, string_bytes, zip};
ghost use Rattle.std.specs.Fmt.{signed_decimal};
ghost use Rattle.ip_defs.specs.Program.{cost as cost_of};
ghost use Rattle.mps_defs.specs.CanonicalText.{newline, value_text as amount_text};
ghost use Rattle.mps_defs.specs.Numbers.{decimal_text};
ghost use Rattle.sens_report.specs.AnswerTexts.{value_line, value_lines};

use decimals::decimal_text;
use ip_defs::{Column, Memory, Point};
use ip_model::{IntModel, cost};
use std::alloc::{AllocError, Global};

/// The front of a column's line: its name.
fn named(alloc: Global, name: &str) -> Result<String, AllocError>
    ensures { IfOk result (λ s. string_bytes s ≡ codes "value " ++ name.now ++ codes " ") }
{
    format!(in alloc; "value {name} ")
}

/// The rest of a column's line: its value.
fn numbered(alloc: Global, value: i64) -> Result<String, AllocError>
    ensures { IfOk result (λ s. string_bytes s ≡ signed_decimal value ++ codes "\n") }
{
    format!(in alloc; "{value}\n")
}

/// The line of a column's value at a point.
fn value_text(alloc: Global, name: &str, value: i64) -> Result<String, AllocError>
    ensures { IfOk result (λ s. string_bytes s ≡ codes "value " ++ name.now ++ codes " " ++ signed_decimal value ++ codes "\n") }
{
    let mut line = named(alloc, name)?;
    let number = numbered(alloc, value)?;
    line.push_str(number.as_str())?;
    Ok(line)
}

/// Adds the line of each column's value, in order.
fn push_values(
    alloc: Global,
    columns: &[Column],
    point: &[i64],
    text: &mut String,
) -> Result<(), AllocError>
    requires { length point.now ≡ length columns.now }
    ensures { OnOk result (string_bytes text.new ≡ string_bytes text.old ++ flat_map value_line (zip columns.now point.now)) }
{
    for (j, column) in columns.iter().enumerate() {
        let line = value_text(alloc, column.name.as_str(), point[j])?;
        text.push_str(line.as_str())?;
    }
    Ok(())
}

/// A line with an amount: its word, and the cost with the decimals of the costs.
fn cost_line(alloc: Global, word: &str, cost: i128, decimals: u8) -> Result<String, Memory>
    ensures { IfOk result (λ s. string_bytes s ≡ word.now ++ decimal_text cost decimals ++ codes "\n") }
{
    let amount = decimal_text(alloc, cost, decimals)?;
    let mut line = String::from_str(alloc, word)?;
    line.push_str(amount.as_str())?;
    line.push_str("\n")?;
    Ok(line)
}

/// The text of a point and its cost, after a word.
pub fn point_text(
    alloc: Global,
    word: &str,
    model: &IntModel,
    point: &Point,
) -> Result<String, Memory>
    requires { length point.now ≡ length model.now.columns }
    ensures { IfOk result (λ s. string_bytes s ≡ word.now ++ amount_text model.now (cost_of model.now point.now) ++ newline ++
        value_lines model.now point.now) }
{
    let cost = cost(model, point);
    let parts = model.parts();
    let mut text = cost_line(alloc, word, cost, parts.cost_decimals)?;
    push_values(alloc, parts.columns.as_slice(), point.as_slice(), &mut text)?;
    Ok(text)
}
