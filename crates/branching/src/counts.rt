//! How many nodes the tree of an outcome has, and how many of its splits went without the answer of a linear program.
ghost use Rattle.std.specs.Prelude.{◌≡◌, ◌≤◌};
ghost use Rattle.std.specs.List.{count_by};
ghost use Rattle.proof_tree.specs.LabelledTrees.{node_count as nodes_in, split_labels};
ghost use Rattle.proof_tree.specs.Trees.{plain};
ghost use Rattle.node_bounds.specs.Stops.{is_skipped as is_skipped_reason};
ghost use Rattle.branching.specs.Counts.{nodes_of, skipped_of};
ghost use Rattle.open_nodes.specs.OpenTrees.{plain_open};

use crate::{OpenTree, Outcome, Why};
use proof_tree::Tree;

/// How many nodes a tree has.
fn tree_nodes(tree: &Tree) -> u32
    requires { nodes_in (plain tree.now) ≤ 1000000 }
    ensures { result ≡ nodes_in (plain tree.now) }
{
    match tree {
        Tree::Leaf(_) => 1,
        Tree::Split { left, right, .. } => tree_nodes(left) + tree_nodes(right) + 1,
    }
}

/// How many nodes a tree has that is still being grown.
fn open_nodes(tree: &OpenTree) -> u32
    requires { nodes_in (plain_open tree.now) ≤ 1000000 }
    ensures { result ≡ nodes_in (plain_open tree.now) }
{
    match tree {
        OpenTree::Pending => 1,
        OpenTree::Stuck(_) => 1,
        OpenTree::Leaf(_) => 1,
        OpenTree::Split { left, right, .. } => open_nodes(left) + open_nodes(right) + 1,
    }
}

/// Whether a split for a reason went without the answer of a linear program.
fn is_skipped(why: &Why) -> bool
    ensures { result ≡ is_skipped_reason why.now }
{
    match why {
        Why::Fractional { .. } => false,
        Why::Stopped | Why::Wide => true,
    }
}

/// How many of the reasons are of skipped splits.
fn skips_among(reasons: &[Why]) -> usize
    ensures { result ≡ count_by is_skipped_reason reasons.now }
{
    reasons.iter().filter(|why| is_skipped(*why)).count()
}

/// How many splits of a tree that is still being grown were skipped.
#[tactic(auto, using(crate::proofs::CountLaws::skips_joined))]
fn open_skips(tree: &OpenTree) -> u32
    requires { count_by is_skipped_reason (split_labels (plain_open tree.now)) ≤ 1000000 }
    ensures { result ≡ count_by is_skipped_reason (split_labels (plain_open tree.now)) }
{
    match tree {
        OpenTree::Pending => 0,
        OpenTree::Stuck(_) => 0,
        OpenTree::Leaf(_) => 0,
        OpenTree::Split {
            why,
            left,
            right,
            ..
        } => u32::from(is_skipped(why)) + (open_skips(left) + open_skips(right)),
    }
}

/// How many nodes the tree of an outcome has: that of its proof, or the one that was grown before the search stopped.
pub fn node_count(outcome: &Outcome) -> u32
    requires { nodes_of outcome.now ≤ 1000000 }
    ensures { result ≡ nodes_of outcome.now }
{
    match outcome {
        Outcome::Best { proof, .. } => tree_nodes(&proof.tree),
        Outcome::Empty { proof, .. } => tree_nodes(&proof.tree),
        Outcome::Budget { grown, .. } => open_nodes(grown),
    }
}

/// How many splits of the tree of an outcome went without the answer of a linear program. A stuck node is no split.
pub fn skipped_count(outcome: &Outcome) -> u32
    requires { skipped_of outcome.now ≤ 1000000 }
    ensures { result ≡ skipped_of outcome.now }
{
    match outcome {
        Outcome::Best { reasons, .. } => skips_among(reasons.as_slice()) as u32,
        Outcome::Empty { reasons, .. } => skips_among(reasons.as_slice()) as u32,
        Outcome::Budget { grown, .. } => open_skips(grown),
    }
}
