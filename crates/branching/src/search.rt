//! The search: best bound first, until no node waits or a limit stops it.
ghost use Rattle.std.specs.Prelude.{◌≡◌, ◌+◌, ◌*◌, ◌≤◌, ℕ, None, IsSome, IfOk, OnOk, length, Some};
ghost use Rattle.std.specs.Option.{ForSome};
ghost use Rattle.ip_defs.specs.Limits.{IsWithinLimits};
ghost use Rattle.ip_model.specs.Sizes.{allowance, first_crossed};
ghost use Rattle.node_bounds.specs.Areas.{IsSearchArea};
ghost use Rattle.node_bounds.specs.Nodes.{IsNodeOf, IsSplit, KeepsReason, stops_of};
ghost use Rattle.node_bounds.specs.Stops.{stops};
ghost use Rattle.open_nodes.specs.Frontiers.{entry_at};
ghost use Rattle.open_nodes.specs.Frontiers.{IsFrontier};
ghost use Rattle.open_nodes.specs.Nodes.{Entry};
ghost use Rattle.open_nodes.specs.OpenTrees.{IsDone, plain_open};
ghost use Rattle.branching.specs.declared.budgets.Limits.{Limits as LimitsOf};
ghost use Rattle.branching.specs.BestFirst.{IsBestFirst};
ghost use Rattle.branching.specs.Counts.{AreCountsWithin, IsCounted, nodes_of, stopped_of};
ghost use Rattle.branching.specs.Outcomes.{HasOneStuck, IsRightOutcome, IsTrueOutcome};
ghost use Rattle.branching.specs.Internal.Growth.{FitsProgress, IsAfter, IsEnded, IsGrowing, box_at, solves};
ghost use Rattle.branching.specs.Internal.Search.{IsAnswerOf, cost_of};
ghost use Rattle.branching.specs.Sizes.{AreAmple, IsAnswer};

use crate::finished_trees::finish;
use crate::found_points::{Found, best_cost, best_point};
use crate::rounds::{Place, Step, settle};
use crate::{BudgetWhat, Limits, Outcome, Whys};
use ip_defs::{Area, Memory, Point};
use ip_model::{IntModel, box_of, set_box};
use node_bounds::{Node, Proposer, Task, Workspace, box_bound, split_or_close, start, visit};
use open_nodes::{Frontier, OpenTree, Solved, Taken};
use proof_tree::{Claim, Proof};
use simplex_exact::Steps;
use std::alloc::Global;
use std::sync::ledger::Ledger;

/// What a search takes from round to round.
#[derive(Drop)]
pub struct Progress {
    /// The best point so far, with its cost.
    pub found: Found,
    /// The nodes of the tree as far as it was grown, and the order of those that wait.
    pub open: Frontier,
    /// Memory for the box of a node.
    pub area: Area,
    /// Memory, and which columns to split.
    pub work: Workspace,
}

/// What is said of the box of a node that was taken: its linear program is solved, or it was solved before and the split that it asked for
/// is looked at again.
fn answered<P: Proposer, L: Ledger>(
    alloc: Global,
    model: &IntModel,
    pivots: u32,
    key: usize,
    solved: Option<Solved>,
    proposer: &mut P,
    search: &mut Progress,
    steps: &mut Steps<L>,
) -> Result<Node, Memory>
    requires uncrossed { first_crossed model.now ≡ None }
    requires fits { FitsProgress model.now search.old }
    requires frontier { IsFrontier search.old.open }
    requires area { (e : Entry) → entry_at search.old.open key ≡ Some e → IsSearchArea model.now (box_at model.now e) }
    requires here { IsSome (entry_at search.old.open key) }
    requires asked { ForSome solved (λ s. (e : Entry) → entry_at search.old.open key ≡ Some e
        → IsSplit model.now pivots (box_at model.now e) s.col s.at s.why × (stops s.why ≡ 0)) }
    ensures node { IfOk result (λ n. (e : Entry) → entry_at search.old.open key ≡ Some e
        → IsNodeOf model.now pivots (box_at model.now e) (cost_of search.old.found) n) }
    ensures keeps { IfOk result (λ n. ForSome solved (λ s. KeepsReason s.why n)) }
    ensures least { IfOk result (λ n. steps.old + stops_of n * pivots ≤ steps.new) }
    ensures rises { steps.old ≤ steps.new }
    ensures most { steps.new ≤ steps.old + solves solved * pivots }
    ensures fits { FitsProgress model.now search.new }
    ensures found { search.new.found ≡ search.old.found }
    ensures open { search.new.open ≡ search.old.open }
{
    set_box(model, &mut search.area);
    search.open.cut_to_node(key, &mut search.area);
    search.work.chooser.enter(key);
    let cut_at = best_cost(&search.found);
    let task = Task {
        model,
        area: &search.area,
        pivots,
        cut_at,
    };
    let work = &mut search.work;
    match solved {
        None => visit(alloc, &task, proposer, work, steps),
        Some(Solved { col, at, why }) => {
            let scratch = &mut work.scratch;
            Ok(split_or_close(alloc, &task, col, at, why, scratch))
        }
    }
}

/// One round: the node with the least bound is taken and settled. Where no node waits, the search has ended.
fn round<P: Proposer, L: Ledger>(
    alloc: Global,
    model: &IntModel,
    limits: Limits,
    proposer: &mut P,
    search: &mut Progress,
    steps: &mut Steps<L>,
) -> Result<Step, Memory>
    requires uncrossed { first_crossed model.now ≡ None }
    requires most_nodes { limits.nodes ≤ 1000000 }
    requires most_depth { limits.depth ≤ 800 }
    requires fits { FitsProgress model.now search.old }
    requires growing { (begun : ℕ) × IsGrowing model.now limits search.old.found search.old.open begun steps.old }
    ensures fits { FitsProgress model.now search.new }
    ensures after { IfOk result (λ step. (begun : ℕ) → IsGrowing model.now limits search.old.found search.old.open begun steps.old
        → IsAfter model.now limits search.new.found search.old.open search.new.open begun steps.new step) }
    ensures rises { steps.old ≤ steps.new }
{
    let Taken {
        key,
        depth,
        bound,
        solved,
    } = match search.open.next() {
        Some(taken) => taken,
        None => return Ok(Step::Ended(None)),
    };
    let place = Place {
        key,
        depth,
        bound,
        solved: solved.is_some(),
    };
    let node = answered(
        alloc,
        model,
        limits.pivots,
        key,
        solved,
        proposer,
        search,
        steps,
    )?;
    let chooser = &mut search.work.chooser;
    let found = &mut search.found;
    settle(
        limits,
        place,
        node,
        model.parts(),
        chooser,
        found,
        &mut search.open,
    )
}

/// Grows the tree until no node waits, or a limit stops it.
fn grow<P: Proposer, L: Ledger>(
    alloc: Global,
    model: &IntModel,
    limits: Limits,
    proposer: &mut P,
    search: &mut Progress,
    steps: &mut Steps<L>,
) -> Result<Option<BudgetWhat>, Memory>
    requires uncrossed { first_crossed model.now ≡ None }
    requires most_nodes { limits.nodes ≤ 1000000 }
    requires most_depth { limits.depth ≤ 800 }
    requires fits { FitsProgress model.now search.old }
    requires growing { (begun : ℕ) × IsGrowing model.now limits search.old.found search.old.open begun steps.old }
    ensures ended { IfOk result (λ stop. (begun : ℕ) → IsGrowing model.now limits search.old.found search.old.open begun steps.old
        → IsEnded model.now limits search.new.found search.new.open begun steps.new stop) }
    ensures rises { steps.old ≤ steps.new }
{
    'rounds: loop {
        let step = round(alloc, model, limits, proposer, search, steps)?;
        match step {
            Step::Went => {}
            Step::Ended(stop) => return Ok(stop),
        }
    }
}

/// The outcome of a search that has no open node.
fn answer(alloc: Global, tree: OpenTree, best: Option<Point>) -> Result<Outcome, Memory>
    requires { IsDone (plain_open tree) }
    ensures { IfOk result (IsAnswerOf (plain_open tree) best) }
{
    let mut reasons = Whys::from_vec(Vec::new(alloc));
    let tree = finish(alloc, tree, &mut reasons)?;
    match best {
        Some(point) => {
            let proof = Proof {
                claim: Claim::Best(point),
                tree,
            };
            Ok(Outcome::Best { proof, reasons })
        }
        None => {
            let proof = Proof {
                claim: Claim::Empty,
                tree,
            };
            Ok(Outcome::Empty { proof, reasons })
        }
    }
}

/// A search of the whole box that has looked at no node yet: its root waits with the sum of the box.
fn begin(alloc: Global, model: &IntModel) -> Result<Progress, Memory>
    ensures limits { OnOk result (IsWithinLimits model.now) }
    ensures fits { IfOk result (FitsProgress model.now) }
    ensures growing { IfOk result (λ s. (l : LimitsOf) → 1 ≤ l.nodes → (begun : ℕ) → IsGrowing model.now l s.found s.open begun begun) }
{
    let area = box_of(alloc, model)?;
    let mut work = Workspace::new(alloc, model)?;
    let bound = box_bound(alloc, model, &area, &mut work);
    let open = Frontier::new(alloc, bound)?;
    Ok(Progress {
        found: None,
        open,
        area,
        work,
    })
}

/// Solves a model with any proposer: the outcome is right, best bound first, whatever it proposes. See `solve`.
pub fn solve_with<P: Proposer, L: Ledger>(
    alloc: Global,
    model: &IntModel,
    limits: Limits,
    proposer: &mut P,
    steps: &mut Steps<L>,
) -> Result<Outcome, Memory>
    requires uncrossed { first_crossed model.now ≡ None }
    requires nodes { 1 ≤ limits.nodes }
    requires most { limits.nodes ≤ 1000000 }
    requires depth { limits.depth ≤ 800 }
    ensures right { IfOk result (IsRightOutcome model.now limits) }
    ensures first { IfOk result (IsBestFirst model.now) }
    ensures stuck { IfOk result HasOneStuck }
    ensures counted { IfOk result (λ o. IsCounted limits (stopped_of o) (nodes_of o) steps.old steps.new) }
    ensures rises { steps.old ≤ steps.new }
{
    let mut search = begin(alloc, model)?;
    let stop = grow(alloc, model, limits, proposer, &mut search, steps)?;
    let Progress { found, open, .. } = search;
    let tree = open.assemble(alloc)?;
    let best = best_point(found);
    match stop {
        None => answer(alloc, tree, best),
        Some(what) => Ok(Outcome::Budget {
            what,
            grown: tree,
            best,
        }),
    }
}

/// Solves a model by branch and bound over exact linear programs: a least point, or that no point is feasible, with the tree that proves
/// it. It goes best bound first. The method is that of Land and Doig (An automatic method of solving discrete programming problems, 1960),
/// with a certificate for each leaf.
///
/// The node that waits with the least bound is next: of those with the same bound the deepest, and of these the one made last. A node
/// whose own linear program raises its bound above that of another node that waits goes back and waits; its program is not solved again.
/// So no feasible point costs less than the bound of a certificate by which a node is split, or is stuck.
///
/// One dual tableau lives through the whole search. At each node it proposes the answer of the linear program, in at most
/// `limits.pivots` dual steps, and an exact check decides. Where no proposal is accepted the defined simplex solves the linear program, in
/// at most `limits.pivots` steps; these alone are counted. With 0 steps nothing is proposed.
///
/// A box is closed where the sum of its least costs, or its linear program, is not below the cost of the best point so far. A box of one
/// point closes its own node: it is kept, where it is feasible; else a ray on the row that it breaks shows the box empty. A whole point
/// of a linear program that is better is kept. Each split has a point in both halves, and its reason (see `Why`).
///
/// The search stops with `Budget` at the first node that must be split and may not be; the depth is tested first. That node is `Stuck`,
/// the best point does not close it, and every other open node is `Pending`. It never stops where the limits are as large as the box asks.
/// The counter of steps rises by `limits.pivots` at least for each node whose linear program was stopped. It never falls, whatever the
/// answer. Out of memory is the one error.
pub fn solve<L: Ledger>(
    alloc: Global,
    model: &IntModel,
    limits: Limits,
    steps: &mut Steps<L>,
) -> Result<Outcome, Memory>
    requires nodes { 1 ≤ limits.nodes }
    requires most { limits.nodes ≤ allowance model.now 1000000 }
    requires depth { limits.depth ≤ 800 }
    requires uncrossed { first_crossed model.now ≡ None }
    ensures right { IfOk result (IsRightOutcome model.now limits) }
    ensures first { IfOk result (IsBestFirst model.now) }
    ensures stuck { IfOk result HasOneStuck }
    ensures holds { IfOk result (IsTrueOutcome model.now) }
    ensures ends { IfOk result (λ o. AreAmple model.now limits → IsAnswer o) }
    ensures counts { IfOk result (AreCountsWithin limits) }
    ensures counted { IfOk result (λ o. IsCounted limits (stopped_of o) (nodes_of o) steps.old steps.new) }
    ensures rises { steps.old ≤ steps.new }
{
    let mut tableau = start(alloc, model)?;
    solve_with(alloc, model, limits, &mut tableau, steps)
}
