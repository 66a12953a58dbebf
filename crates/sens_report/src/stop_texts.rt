//! The printed text of a row sweep that stops before it is answered.

ghost use Rattle.std.specs.Prelude.{◌≡◌, ◌≤◌, ◌++◌, IfOk, codes, decimal, string_bytes};
ghost use Rattle.mps_defs.specs.CanonicalText.{newline};
ghost use Rattle.sens_report.specs.AnswerTexts.{limit_word};
ghost use Rattle.sens_report.specs.StopTexts.{IsStopWithin, grown_count, row_stop_lines};

use crate::outcome_texts::{count_line, limit_stop_text};
use branching::{BudgetWhat, OpenTree};
use ip_defs::Memory;
use ip_model::IntModel;
use rhs_sweep::RowStop;
use std::alloc::Global;

/// How many nodes a tree has that is still being grown.
fn grown_nodes(tree: &OpenTree) -> u32
    requires { grown_count tree.now ≤ 1000000 }
    ensures { result ≡ grown_count tree.now }
{
    match tree {
        OpenTree::Pending => 1,
        OpenTree::Stuck(_) => 1,
        OpenTree::Leaf(_) => 1,
        OpenTree::Split { left, right, .. } => grown_nodes(left) + grown_nodes(right) + 1,
    }
}

/// The text of a solve that stopped: the limit, and the nodes of the tree that it has grown.
fn budget_text(alloc: Global, what: BudgetWhat, grown: &OpenTree) -> Result<String, Memory>
    requires { grown_count grown.now ≤ 1000000 }
    ensures { IfOk result (λ s. string_bytes s ≡ codes "budget " ++ limit_word what ++ newline ++ codes "nodes " ++ decimal (grown_count
        grown.now) ++ newline) }
{
    let mut text = limit_stop_text(alloc, what)?;
    let nodes = count_line(alloc, "nodes ", grown_nodes(grown))?;
    text.push_str(nodes.as_str())?;
    Ok(text)
}

/// The text of a stop.
fn stop_text(alloc: Global, stop: &RowStop) -> Result<String, Memory>
    requires { IsStopWithin stop.now }
    ensures { IfOk result (λ s. string_bytes s ≡ row_stop_lines stop.now) }
{
    match stop {
        RowStop::Budget { what, grown, .. } => budget_text(alloc, *what, grown),
        RowStop::Solves { .. } => Ok(String::from_str(alloc, "budget solves\nsolves 10000\n")?),
        RowStop::Memory => Err(Memory),
    }
}

/// The text of a row sweep of a model that stops before it is answered: `budget nodes` or `budget depth`, and `nodes N` with the nodes of
/// the tree that was grown last, which are at most 1,000,000; or `budget solves` and `solves 10000`. No name or cost of the model stands
/// in it. `Memory` means out of memory, now or when the sweep stopped.
pub fn row_stop_text(alloc: Global, _model: &IntModel, stop: &RowStop) -> Result<Vec<u8>, Memory>
    requires within { IsStopWithin stop.now }
    ensures text { IfOk result (λ text. text.items ≡ row_stop_lines stop.now) }
{
    let text = stop_text(alloc, stop)?;
    Ok(text.into_bytes())
}
