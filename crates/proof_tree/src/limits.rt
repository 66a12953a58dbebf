//! Whether a tree is within the limits.
ghost use Rattle.std.specs.Prelude.{◌≡◌, None};
ghost use Rattle.proof_tree.specs.Internal.Numbered.{passed_over, top};
ghost use Rattle.proof_tree.specs.LabelledTrees.{leaf_node, split_node, nodes_from};
ghost use Rattle.proof_tree.specs.Trees.{plain, own_limit, limit_at, tree_limit};
ghost use Rattle.proof_tree.specs.Within.{IsTreeWithin};

use crate::{Tree, TreeLimit};
use ip_defs::Cert;
use leaf_cert::cert_ok;

/// The greatest depth of a node.
const DEEPEST: u32 = 800;

/// The greatest number of nodes of a tree.
const MOST_NODES: u32 = 1_000_000;

/// The greatest column number.
const LAST_COLUMN: u32 = 4_095;

/// The greatest absolute value of the cut of a split.
const LARGEST_CUT: u64 = 1 << 24;

/// The number of rows for which a certificate is tested.
const MOST_ROWS: u32 = 1_024;

/// The limit that a certificate exceeds.
fn cert_limit(cert: &Cert, node: u32) -> Option<TreeLimit>
    ensures { result ≡ own_limit node (leaf_node cert.now) }
{
    if cert_ok(cert, MOST_ROWS) {
        None
    } else {
        Some(TreeLimit::Cert { node })
    }
}

/// The limit that the column or the cut of a split exceeds.
fn split_limit(col: u32, at: i64, node: u32) -> Option<TreeLimit>
    ensures { result ≡ own_limit node (split_node col at tt) }
{
    if col <= LAST_COLUMN && at.unsigned_abs() <= LARGEST_CUT {
        None
    } else {
        Some(TreeLimit::At { node })
    }
}

/// The first limit that one node exceeds, given its depth and its number.
fn node_limit(tree: &Tree, depth: u32, node: u32) -> Option<TreeLimit>
    ensures { result ≡ limit_at node (depth, top (plain tree.now)) }
{
    if depth > DEEPEST {
        return Some(TreeLimit::Depth);
    }
    if node >= MOST_NODES {
        return Some(TreeLimit::Nodes);
    }
    match tree {
        Tree::Leaf(cert) => cert_limit(cert, node),
        Tree::Split { col, at, .. } => split_limit(*col, *at, node),
    }
}

/// The number after the nodes of a subtree, or the first limit that one of them exceeds. The recursion ends at the greatest depth.
fn pass(tree: &Tree, depth: u32, node: u32) -> Result<u32, TreeLimit>
    ensures { result ≡ passed_over limit_at node (nodes_from depth (plain tree.now)) }
{
    match node_limit(tree, depth, node) {
        Some(limit) => return Err(limit),
        None => {}
    }
    match tree {
        Tree::Leaf(_) => Ok(node + 1),
        Tree::Split { left, right, .. } => match pass(left, depth + 1, node + 1) {
            Ok(next) => pass(right, depth + 1, next),
            Err(limit) => Err(limit),
        },
    }
}

/// The first limit that a tree exceeds.
fn first_limit(tree: &Tree) -> Option<TreeLimit>
    ensures { result ≡ tree_limit (plain tree.now) }
{
    match pass(tree, 0, 0) {
        Ok(_) => None,
        Err(limit) => Some(limit),
    }
}

/// The first limit that a tree exceeds, in preorder with nodes numbered from 0; None where the tree is within the limits. At each node
/// the depth is tested first, then the number of nodes, then the numbers of the node. Allocates nothing.
pub fn tree_limits(tree: &Tree) -> Option<TreeLimit>
    ensures first { result ≡ tree_limit (plain tree.now) }
    ensures within { result ≡ None → IsTreeWithin (plain tree.now) }
{
    first_limit(tree)
}
