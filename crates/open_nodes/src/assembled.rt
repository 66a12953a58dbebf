//! The tree that owns its nodes, made of an open tree by moves.
ghost use Rattle.std.specs.Prelude.{◌≡◌, IfNone, IfOk, IfSome};
ghost use Rattle.open_nodes.specs.OpenTrees.{plain_open};
ghost use Rattle.open_nodes.specs.Frontiers.{IsFrontier, IsTreeOf};
ghost use Rattle.open_nodes.specs.Internal.Forests.{IsForest, IsTop, TakesTree};
ghost use Rattle.open_nodes.specs.Internal.Joins.{IsLeafState, IsSplitInto, IsSplitState, leaf_tree, split_tree};

use crate::OpenTree;
use crate::frontiers::Frontier;
use crate::nodes::{Node, State};
use ip_defs::Memory;
use slab::Slab;
use std::alloc::Global;

/// The keys of the children of a split node.
fn children(state: &State) -> Option<(usize, usize)>
    ensures some { IfSome result (λ keys. IsSplitInto state.now keys.0 keys.1) }
    ensures none { IfNone result (IsLeafState state.now) }
{
    match state {
        State::Split { left, right, .. } => Some((*left, *right)),
        State::Waiting { .. } => None,
        State::Taken => None,
        State::Closed(_) => None,
        State::Stuck(_) => None,
    }
}

/// A node that is not split, as a tree.
fn leaf_of(state: State) -> OpenTree
    requires { IsLeafState state }
    ensures { plain_open result ≡ leaf_tree state }
{
    match state {
        State::Waiting { .. } => OpenTree::Pending,
        State::Taken => OpenTree::Pending,
        State::Closed(cert) => OpenTree::Leaf(cert),
        State::Stuck(why) => OpenTree::Stuck(why),
        State::Split { .. } => unreachable!(),
    }
}

/// A split node over the trees of its children.
fn join(alloc: Global, state: State, left: OpenTree, right: OpenTree) -> Result<OpenTree, Memory>
    requires { IsSplitState state }
    ensures { IfOk result (λ t. plain_open t ≡ split_tree state (plain_open left) (plain_open right)) }
{
    match state {
        State::Split { col, at, why, .. } => Ok(OpenTree::Split {
            col,
            at,
            why,
            left: Box::new(alloc, left)?,
            right: Box::new(alloc, right)?,
        }),
        State::Waiting { .. } => unreachable!(),
        State::Taken => unreachable!(),
        State::Closed(_) => unreachable!(),
        State::Stuck(_) => unreachable!(),
    }
}

/// The tree under a key, whose nodes leave the slab.
fn take_tree(alloc: Global, nodes: &mut Slab<Node>, key: usize) -> Result<OpenTree, Memory>
    requires forest { IsForest nodes.old }
    requires top { IsTop nodes.old key }
    ensures { IfOk result (λ t. TakesTree nodes.old nodes.new key (plain_open t)) }
{
    let state = nodes.remove(key).state;
    match children(&state) {
        None => Ok(leaf_of(state)),
        Some(keys) => {
            let left = take_tree(alloc, nodes, keys.0)?;
            let right = take_tree(alloc, nodes, keys.1)?;
            join(alloc, state, left, right)
        }
    }
}

impl Frontier {
    /// The tree of all nodes, each at its place. A node that waits, or was taken, is pending. The one error is out of memory.
    pub fn assemble(self, alloc: Global) -> Result<OpenTree, Memory>
        requires frontier { IsFrontier self }
        ensures tree { IfOk result (λ t. IsTreeOf self (plain_open t)) }
    {
        let Frontier {
            mut nodes,
            order: _,
            root,
        } = self;
        take_tree(alloc, &mut nodes, root)
    }
}
