//! Verdicts by the bound of a tree.
ghost use Rattle.std.specs.Prelude.{◌≡◌, ◌↔◌, length};
ghost use Rattle.proof_tree.specs.Scratches.{FitsWalk};
ghost use Rattle.proof_tree.specs.Trees.{plain, FitsModel};
ghost use Rattle.proof_tree.specs.Verdicts.{HasLength, IsProved, IsProvedVerdict, IsTrueClaim, is_at_least as is_at_least_by, judged};
ghost use Rattle.proof_tree.specs.Verdicts.{verdict_of};
ghost use Rattle.proof_tree.specs.Within.{IsTreeWithin};
ghost use Rattle.ip_defs.specs.Program.{box_of};

use ip_defs::Bound;
use ip_model::{IntModel, cost, first_breach};
use leaf_cert::Scratch;
use proof_tree::{Claim, Proof, Verdict, tree_bound};
use std::alloc::Global;

/// Whether a bound is at least a number.
fn is_at_least(bound: Bound, cost: i128) -> bool
    ensures { result ≡ is_at_least_by bound cost }
{
    match bound {
        Bound::At(value) => value >= cost,
        Bound::Infinite => true,
    }
}

/// The verdict on a claim by the bound of a tree. A claimed point has one coordinate for each column. Takes no memory.
pub fn judge(model: &IntModel, claim: &Claim, bound: Bound) -> Verdict
    requires point { HasLength (length model.now.columns) claim.now }
    ensures { result ≡ judged model.now claim.now bound }
{
    match claim {
        Claim::Best(point) => match first_breach(model, point) {
            Some(breach) => Verdict::NotFeasible(breach),
            None => {
                let cost = cost(model, point);
                if is_at_least(bound, cost) {
                    Verdict::Proved { cost: Some(cost) }
                } else {
                    Verdict::Short {
                        bound,
                        claim: Some(cost),
                    }
                }
            }
        },
        Claim::Empty => match bound {
            Bound::Infinite => Verdict::Proved { cost: None },
            Bound::At(_) => Verdict::Short { bound, claim: None },
        },
    }
}

/// The verdict on a proof within the limits that fits a model, whatever model it was made for: Proved exactly where the claimed point is
/// feasible and the tree bounds each feasible point by its cost, or where the claim is emptiness and the tree leaves no point. Takes no
/// memory; the allocator stands in for the box of the scratch while the tree is walked.
pub fn check(alloc: Global, model: &IntModel, proof: &Proof, scratch: &mut Scratch) -> Verdict
    requires limits { IsTreeWithin (plain proof.now.tree) }
    requires fits { FitsModel model.now (plain proof.now.tree) }
    requires point { HasLength (length model.now.columns) proof.now.claim }
    requires scratch { FitsWalk (length model.now.columns) scratch.old }
    ensures verdict { result ≡ verdict_of model.now proof.now }
    ensures exact { IsProvedVerdict result ↔ IsProved model.now proof.now }
    ensures holds { IsProvedVerdict result → IsTrueClaim model.now proof.now.claim }
    ensures area { scratch.new.area ≡ box_of model.now }
    ensures scratch { FitsWalk (length model.now.columns) scratch.new }
{
    let bound = tree_bound(alloc, model, &proof.tree, scratch);
    judge(model, &proof.claim, bound)
}
