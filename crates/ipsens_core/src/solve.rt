//! The command `solve`: a model is searched for a cheapest plan, and answered; the proof of an answer may be saved.

ghost use Rattle.std.specs.Prelude.{◌≡◌, ◌<◌, ◌≤◌, IfOk, Some, option_map};
ghost use Rattle.branching.specs.BestFirst.{IsBestFirst};
ghost use Rattle.branching.specs.Counts.{AreCountsWithin};
ghost use Rattle.branching.specs.Outcomes.{IsRightOutcome, IsTrueOutcome};
ghost use Rattle.branching.specs.Sizes.{AreAmple, IsAnswer};
ghost use Rattle.ip_model.specs.Sizes.{allowance as most_nodes_of, first_crossed};
ghost use Rattle.ips_words.specs.Requests.{AreLimits};
ghost use Rattle.ipsens_core.specs.Internal.Made.{answer_of, file_saved};
ghost use Rattle.ipsens_core.specs.Solve.{HasOutcome, IsProofSpelled, IsSpelled, limits_for, outcome_status as status_of_outcome};
ghost use Rattle.ipsens_core.specs.Solve.{saved_outcome, saved_proof};

use crate::answers::{Made, Saved};
use crate::statuses::Status;
use branching::{Limits, Outcome, Proof, Steps, solve};
use ip_defs::{Memory, Name};
use ip_model::{IntModel, allowance};
use sens_report::solve_text;
use std::alloc::Global;
use std::marker::Brand;
use std::sync::ledger::{Blank, Ledger};
use tree_format::encode;

/// Searches a model for a cheapest plan, with a counter of steps that stands at 0.
fn searched<L: Ledger>(
    alloc: Global,
    model: &IntModel,
    limits: Limits,
    blank: Blank,
) -> Result<Outcome, Memory>
    requires blank { (blank.name ≡ L.name) × (blank.parts ≡ L.parts) × (0 < L.parts) }
    requires limits { (1 ≤ limits.nodes) × (limits.nodes ≤ most_nodes_of model.now 1000000) × (limits.depth ≤ 800) }
    requires uncrossed { first_crossed model.now ≡ None }
    ensures right { IfOk result (IsRightOutcome model.now limits) }
    ensures holds { IfOk result (IsTrueOutcome model.now) }
    ensures ends { IfOk result (λ o. AreAmple model.now limits → IsAnswer o) }
    ensures first { IfOk result (IsBestFirst model.now) }
    ensures counts { IfOk result (AreCountsWithin limits) }
{
    let mut steps = Steps::<L>::new(blank);
    solve(alloc, model, limits, &mut steps)
}

/// Whether an outcome is an answer or a stop.
fn outcome_status(outcome: &Outcome) -> Status
    ensures { result ≡ status_of_outcome outcome.now }
{
    match outcome {
        Outcome::Best { .. } | Outcome::Empty { .. } => Status::Answered,
        Outcome::Budget { .. } => Status::Budget,
    }
}

/// The file of a proof, under a name.
fn saved<'a>(alloc: Global, name: &'a Name, proof: &Proof) -> Result<Saved<'a>, Memory>
    requires { IsProofSpelled proof.now }
    ensures { IfOk result (λ file. Some (file_saved file) ≡ saved_proof (Some name.now) proof.now) }
{
    let bytes = encode(alloc, proof)?;
    Ok(Saved { name, bytes })
}

/// The file of an outcome that is no stop, where a name is given.
fn saved_of<'a>(
    alloc: Global,
    tree: &'a Option<Name>,
    outcome: &Outcome,
) -> Result<Option<Saved<'a>>, Memory>
    requires { IsSpelled outcome.now }
    ensures { IfOk result (λ file. option_map file_saved file ≡ saved_outcome tree.now outcome.now) }
{
    match tree {
        Some(name) => match outcome {
            Outcome::Best { proof, .. } | Outcome::Empty { proof, .. } => {
                let file = saved(alloc, name, proof)?;
                Ok(Some(file))
            }
            Outcome::Budget { .. } => Ok(None),
        },
        None => Ok(None),
    }
}

/// Searches a model within the limits that were asked for, and makes the text of the outcome and the file of its proof.
pub fn solved<'a>(
    alloc: Global,
    model: &IntModel,
    asked: Limits,
    tree: &'a Option<Name>,
) -> Result<Made<'a>, Memory>
    requires limits { AreLimits asked.nodes asked.depth asked.pivots }
    requires uncrossed { first_crossed model.now ≡ None }
    ensures outcome { IfOk result (λ made. HasOutcome model.now (limits_for model.now asked.nodes asked.depth asked.pivots) tree.now
        (answer_of made)) }
{
    let parts = model.parts();
    let limits = Limits {
        nodes: allowance(model, asked.nodes),
        ..asked
    };
    let outcome = searched::<Brand>(alloc, model, limits, Blank::new(1))?;
    let text = solve_text(alloc, model, &outcome)?;
    let saved = saved_of(alloc, tree, &outcome)?;
    Ok(Made {
        status: outcome_status(&outcome),
        text,
        saved,
    })
}
