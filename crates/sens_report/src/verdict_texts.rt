//! The printed text of the verdict on a proof.

ghost use Rattle.std.specs.Prelude.{◌≡◌, ◌++◌, IfOk, codes, string_bytes};
ghost use Rattle.mps_defs.specs.CanonicalText.{newline};
ghost use Rattle.sens_report.specs.AmountTexts.{amount_text as text_of_amount, bound_text as text_of_bound};
ghost use Rattle.sens_report.specs.VerdictTexts.{breach_text as text_of_breach, column_name as name_of_column, row_name as name_of_row};
ghost use Rattle.sens_report.specs.VerdictTexts.{verdict_line as line_of_verdict};

use crate::amount_texts::{amount_text, bound_text};
use ip_defs::{Bound, Breach, Memory, Parts};
use ip_model::IntModel;
use proof_tree::Verdict;
use std::alloc::{AllocError, Global};

/// The name of a column.
fn column_name(parts: &Parts, column: u32) -> &str
    ensures { result.now ≡ name_of_column parts.now column }
{
    match parts.columns.as_slice().get(column as usize) {
        Some(column) => column.name.as_str(),
        None => "",
    }
}

/// The name of a row.
fn row_name(parts: &Parts, row: u32) -> &str
    ensures { result.now ≡ name_of_row parts.now row }
{
    match parts.rows.as_slice().get(row as usize) {
        Some(row) => row.name.as_str(),
        None => "",
    }
}

/// The column or the row that a claimed point breaks.
pub fn breach_text(alloc: Global, parts: &Parts, breach: Breach) -> Result<String, AllocError>
    ensures { IfOk result (λ s. string_bytes s ≡ text_of_breach parts.now breach) }
{
    match breach {
        Breach::Column(column) => {
            let name = column_name(parts, column);
            format!(in alloc; "column {name}")
        }
        Breach::Row(row) => {
            let name = row_name(parts, row);
            format!(in alloc; "row {name}")
        }
    }
}

/// The line of a claimed point that breaks a column or a row.
fn breach_line(alloc: Global, parts: &Parts, breach: Breach) -> Result<String, AllocError>
    ensures { IfOk result (λ s. string_bytes s ≡ codes "not proved " ++ text_of_breach parts.now breach ++ newline) }
{
    let breach = breach_text(alloc, parts, breach)?;
    let breach = breach.as_str();
    format!(in alloc; "not proved {breach}\n")
}

/// The line of a claim that is proved.
fn proved_line(alloc: Global, parts: &Parts, claim: Option<i128>) -> Result<String, Memory>
    ensures { IfOk result (λ s. string_bytes s ≡ codes "proved " ++ text_of_amount claim parts.now.cost_decimals ++ newline) }
{
    let claim = amount_text(alloc, claim, parts.cost_decimals)?;
    let claim = claim.as_str();
    Ok(format!(in alloc; "proved {claim}\n")?)
}

/// The line of a claim that the bound of its tree does not reach.
fn short_line(
    alloc: Global,
    parts: &Parts,
    bound: Bound,
    claim: Option<i128>,
) -> Result<String, Memory>
    ensures { IfOk result (λ s. string_bytes s ≡ (codes "not proved short " ++ text_of_bound bound parts.now.cost_decimals ++ codes " " ++
        text_of_amount claim parts.now.cost_decimals) ++ newline) }
{
    let bound = bound_text(alloc, bound, parts.cost_decimals)?;
    let claim = amount_text(alloc, claim, parts.cost_decimals)?;
    let mut line = String::from_str(alloc, "not proved short ")?;
    line.push_str(bound.as_str())?;
    line.push_str(" ")?;
    line.push_str(claim.as_str())?;
    line.push_str("\n")?;
    Ok(line)
}

/// The line of a verdict.
fn verdict_line(alloc: Global, parts: &Parts, verdict: Verdict) -> Result<String, Memory>
    ensures { IfOk result (λ s. string_bytes s ≡ line_of_verdict parts.now verdict) }
{
    match verdict {
        Verdict::Proved { cost } => proved_line(alloc, parts, cost),
        Verdict::NotFeasible(breach) => Ok(breach_line(alloc, parts, breach)?),
        Verdict::Short { bound, claim } => short_line(alloc, parts, bound, claim),
    }
}

/// The line of the verdict on a proof in a model: `proved V`, `proved empty`, `not proved column NAME`, `not proved row NAME`, or `not
/// proved short BOUND CLAIM`, where each of these is an amount or `empty`. Amounts are in units of the costs, with their decimals. `Memory`
/// means out of memory.
pub fn check_text(alloc: Global, model: &IntModel, verdict: &Verdict) -> Result<Vec<u8>, Memory>
    ensures text { IfOk result (λ text. text.items ≡ line_of_verdict model.now verdict.now) }
{
    let line = verdict_line(alloc, model.parts(), *verdict)?;
    Ok(line.into_bytes())
}
