//! The printed text of how a search ended: a cheapest plan, no plan, or a stop with the best plan so far.

ghost use Rattle.std.specs.Prelude.{◌≡◌, ◌≤◌, ◌++◌, IfOk, codes, decimal, string_bytes};
ghost use Rattle.branching.specs.Counts.{nodes_of, skipped_of};
ghost use Rattle.mps_defs.specs.CanonicalText.{newline};
ghost use Rattle.sens_report.specs.AnswerTexts.{ArePointsWhole, IsWhole, best_lines, claimed, count_lines, limit_word, optimum_lines};
ghost use Rattle.sens_report.specs.AnswerTexts.{outcome_lines};

use crate::point_texts::point_text;
use branching::{BudgetWhat, Claim, Outcome, node_count, skipped_count};
use ip_defs::{Memory, Point};
use ip_model::IntModel;
use std::alloc::{AllocError, Global};

/// A text that is fixed.
fn fixed_text(alloc: Global, text: &str) -> Result<String, Memory>
    ensures { IfOk result (λ s. string_bytes s ≡ text.now) }
{
    Ok(String::from_str(alloc, text)?)
}

/// The line of a count, after its word.
pub fn count_line(alloc: Global, word: &str, count: u32) -> Result<String, AllocError>
    ensures { IfOk result (λ s. string_bytes s ≡ word.now ++ decimal count ++ newline) }
{
    format!(in alloc; "{word}{count}\n")
}

/// The lines of the counts of an outcome: the nodes of its tree, and the splits that went without the answer of a linear program.
fn counts_text(alloc: Global, outcome: &Outcome) -> Result<String, Memory>
    requires nodes { nodes_of outcome.now ≤ 1000000 }
    requires skipped { skipped_of outcome.now ≤ 1000000 }
    ensures { IfOk result (λ s. string_bytes s ≡ count_lines (nodes_of outcome.now) (skipped_of outcome.now)) }
{
    let mut text = count_line(alloc, "nodes ", node_count(outcome))?;
    let skipped = count_line(alloc, "skipped ", skipped_count(outcome))?;
    text.push_str(skipped.as_str())?;
    Ok(text)
}

/// The text of a claim: `optimum V` and a `value` line for each column in order, or `empty`.
fn claim_text(alloc: Global, model: &IntModel, claim: &Claim) -> Result<String, Memory>
    requires { IsWhole model.now (claimed claim.now) }
    ensures { IfOk result (λ s. string_bytes s ≡ optimum_lines model.now (claimed claim.now)) }
{
    match claim {
        Claim::Best(point) => point_text(alloc, "optimum ", model, point),
        Claim::Empty => fixed_text(alloc, "empty\n"),
    }
}

/// The text of the best point so far: `best V` and a `value` line for each column, or `best none`.
fn best_text(alloc: Global, model: &IntModel, best: &Option<Point>) -> Result<String, Memory>
    requires { IsWhole model.now best.now }
    ensures { IfOk result (λ s. string_bytes s ≡ best_lines model.now best.now) }
{
    match best {
        Some(point) => point_text(alloc, "best ", model, point),
        None => fixed_text(alloc, "best none\n"),
    }
}

/// The line of the limit that stopped a search.
pub fn limit_stop_text(alloc: Global, what: BudgetWhat) -> Result<String, Memory>
    ensures { IfOk result (λ s. string_bytes s ≡ codes "budget " ++ limit_word what ++ newline) }
{
    match what {
        BudgetWhat::Nodes => fixed_text(alloc, "budget nodes\n"),
        BudgetWhat::Depth => fixed_text(alloc, "budget depth\n"),
    }
}

/// The text of a search that stopped: the limit, the lines of its counts, and the best point so far.
fn stop_text(
    alloc: Global,
    model: &IntModel,
    what: BudgetWhat,
    counts: &str,
    best: &Option<Point>,
) -> Result<String, Memory>
    requires { IsWhole model.now best.now }
    ensures { IfOk result (λ s. string_bytes s ≡ codes "budget " ++ limit_word what ++ newline ++ counts.now ++ best_lines model.now
        best.now) }
{
    let mut text = limit_stop_text(alloc, what)?;
    text.push_str(counts)?;
    let best = best_text(alloc, model, best)?;
    text.push_str(best.as_str())?;
    Ok(text)
}

/// The text of a claim with the lines of the counts.
fn answer_text(
    alloc: Global,
    model: &IntModel,
    claim: &Claim,
    counts: &str,
) -> Result<String, Memory>
    requires { IsWhole model.now (claimed claim.now) }
    ensures { IfOk result (λ s. string_bytes s ≡ optimum_lines model.now (claimed claim.now) ++ counts.now) }
{
    let mut text = claim_text(alloc, model, claim)?;
    text.push_str(counts)?;
    Ok(text)
}

/// The text of an outcome.
fn outcome_text(alloc: Global, model: &IntModel, outcome: &Outcome) -> Result<String, Memory>
    requires points { ArePointsWhole model.now outcome.now }
    requires nodes { nodes_of outcome.now ≤ 1000000 }
    requires skipped { skipped_of outcome.now ≤ 1000000 }
    ensures { IfOk result (λ s. string_bytes s ≡ outcome_lines model.now outcome.now) }
{
    let counts = counts_text(alloc, outcome)?;
    match outcome {
        Outcome::Best { proof, .. } => answer_text(alloc, model, &proof.claim, counts.as_str()),
        Outcome::Empty { .. } => answer_text(alloc, model, &Claim::Empty, counts.as_str()),
        Outcome::Budget { what, best, .. } => stop_text(alloc, model, *what, counts.as_str(), best),
    }
}

/// The whole text of how a search of a model ended, each line with its end: `optimum V` with a `value` line for each column, or `empty`,
/// then the counts of nodes and of skipped splits; or `budget nodes` or `budget depth`, these counts, and the best point so far or
/// `best none`. V is in units of the costs, with their decimals. The printed point has a value for each column. `Memory` means out of
/// memory.
pub fn solve_text(alloc: Global, model: &IntModel, outcome: &Outcome) -> Result<Vec<u8>, Memory>
    requires points { ArePointsWhole model.now outcome.now }
    requires nodes { nodes_of outcome.now ≤ 1000000 }
    requires skipped { skipped_of outcome.now ≤ 1000000 }
    ensures text { IfOk result (λ text. text.items ≡ outcome_lines model.now outcome.now) }
{
    let text = outcome_text(alloc, model, outcome)?;
    Ok(text.into_bytes())
}
