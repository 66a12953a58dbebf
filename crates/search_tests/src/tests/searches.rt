//! Searches of small models, and whether they end as expected.
ghost use Rattle.std.specs.Prelude.{◌≡◌, ◌<◌, ◌≤◌, None};
ghost use Rattle.std.specs.Bool.{OnTrue};
ghost use Rattle.ip_model.specs.Sizes.{allowance as allowance_of, first_crossed};

use crate::tests::endings::{Case, is_as_expected};
use crate::tests::samples::model_of;
use branching::{Limits, Steps, node_count, skipped_count, solve};
use ip_model::{IntModel, allowance, crossed};
use std::alloc::Global;
use std::marker::Brand;
use std::sync::ledger::{Blank, Ledger};

/// Whether a search of a model may have these limits.
fn may_search(model: &IntModel, limits: Limits) -> bool
    ensures nodes { OnTrue result (1 ≤ limits.nodes) }
    ensures most { OnTrue result (limits.nodes ≤ allowance_of model.now 1000000) }
    ensures depth { OnTrue result (limits.depth ≤ 800) }
    ensures uncrossed { OnTrue result (first_crossed model.now ≡ None) }
{
    limits.nodes >= 1
        && limits.nodes <= allowance(model, 1_000_000)
        && limits.depth <= 800
        && crossed(model).is_none()
}

/// Whether a search of a model ends as expected.
fn ends<L: Ledger>(alloc: Global, model: &IntModel, case: Case<'_>, steps: &mut Steps<L>) -> bool {
    if !may_search(model, case.limits) {
        return false;
    }
    match solve(alloc, model, case.limits, steps) {
        Ok(outcome) => {
            let nodes = node_count(&outcome);
            let skipped = skipped_count(&outcome);
            is_as_expected(alloc, model, &outcome, nodes, skipped, case)
        }
        Err(_) => false,
    }
}

/// Whether a search of a model with a counter of its own ends as expected.
fn ends_counted<L: Ledger>(alloc: Global, model: &IntModel, case: Case<'_>, blank: Blank) -> bool
    requires some { 0 < L.parts }
    requires parts { blank.parts ≡ L.parts }
    requires name { blank.name ≡ L.name }
{
    let mut steps = Steps::<L>::new(blank);
    ends(alloc, model, case, &mut steps)
}

/// Whether a search ends as expected.
pub fn is_so(alloc: Global, case: Case<'_>) -> bool {
    match model_of(alloc, case.sample) {
        Ok(model) => ends_counted::<Brand>(alloc, &model, case, Blank::new(1)),
        Err(_) => false,
    }
}
