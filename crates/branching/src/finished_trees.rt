//! The proof tree of a search that has no open node.
ghost use Rattle.std.specs.Prelude.{◌≡◌, ◌++◌, IfOk, OnOk};
ghost use Rattle.proof_tree.specs.LabelledTrees.{split_labels};
ghost use Rattle.proof_tree.specs.Trees.{plain};
ghost use Rattle.open_nodes.specs.OpenTrees.{IsDone, plain_open, tree_of};

use crate::{OpenTree, Whys};
use ip_defs::Memory;
use proof_tree::Tree;
use std::alloc::Global;

/// The proof tree of a tree without open nodes. The reasons of its splits are added in preorder.
pub fn finish(alloc: Global, tree: OpenTree, reasons: &mut Whys) -> Result<Tree, Memory>
    requires { IsDone (plain_open tree) }
    ensures tree { IfOk result (λ t. plain t ≡ tree_of (plain_open tree)) }
    ensures reasons { OnOk result (reasons.new ≡ reasons.old ++ split_labels (plain_open tree)) }
{
    match tree {
        OpenTree::Pending => unreachable!(),
        OpenTree::Stuck(_) => unreachable!(),
        OpenTree::Leaf(cert) => Ok(Tree::Leaf(cert)),
        OpenTree::Split {
            col,
            at,
            why,
            left,
            right,
        } => {
            reasons.push(why)?;
            let left = finish(alloc, Box::into_inner(left), reasons)?;
            let right = finish(alloc, Box::into_inner(right), reasons)?;
            Ok(Tree::Split {
                col,
                at,
                left: Box::new(alloc, left)?,
                right: Box::new(alloc, right)?,
            })
        }
    }
}
