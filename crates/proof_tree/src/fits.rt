//! Whether a proof fits a model.
ghost use Rattle.std.specs.Prelude.{◌≡◌, ◌+◌, ◌≤◌, None, Some, IfOk, IfErr, length, nat_lt};
ghost use Rattle.std.specs.List.{list_all};
ghost use Rattle.proof_tree.specs.Internal.Numbered.{passed_over, top};
ghost use Rattle.proof_tree.specs.LabelledTrees.{leaf_node, nodes, node_count};
ghost use Rattle.proof_tree.specs.Trees.{plain, FitsModel, own_misfit, misfit_at, tree_misfit};
ghost use Rattle.proof_tree.specs.Verdicts.{HasLength, claim_misfit, proof_misfit};
ghost use Rattle.proof_tree.specs.Within.{IsTreeWithin};

use crate::{Claim, Proof, Shape, ShapeWhat, Tree};
use ip_defs::Cert;
use ip_model::IntModel;

/// Whether the row number of each multiplier is below `rows`.
fn are_below(y: &[(u32, i64)], rows: usize) -> bool
    ensures { result ≡ list_all (λ p. nat_lt p.0 rows) y.now }
{
    y.iter().all(|pair| (pair.0 as usize) < rows)
}

/// The misfit of a certificate that names a row which does not exist.
fn cert_misfit(cert: &Cert, rows: usize) -> Option<ShapeWhat>
    ensures { result ≡ own_misfit 0 rows (leaf_node cert.now) }
{
    if are_below(cert.y.as_slice(), rows) {
        None
    } else {
        Some(ShapeWhat::RowNumber)
    }
}

/// The misfit of one node that names a column or a row which does not exist.
fn node_misfit(tree: &Tree, columns: usize, rows: usize) -> Option<ShapeWhat>
    ensures { result ≡ own_misfit columns rows (top (plain tree.now)) }
{
    match tree {
        Tree::Leaf(cert) => cert_misfit(cert, rows),
        Tree::Split { col, .. } => {
            if (*col as usize) < columns {
                None
            } else {
                Some(ShapeWhat::ColumnNumber)
            }
        }
    }
}

/// The number after the nodes of a subtree, or the first misfit of one of them.
fn pass(tree: &Tree, columns: usize, rows: usize, node: u32) -> Result<u32, Shape>
    requires { node + node_count (plain tree.now) ≤ 1000000 }
    ensures { result ≡ passed_over (misfit_at columns rows) node (nodes (plain tree.now)) }
{
    match node_misfit(tree, columns, rows) {
        Some(what) => return Err(Shape { node, what }),
        None => {}
    }
    match tree {
        Tree::Leaf(_) => Ok(node + 1),
        Tree::Split { left, right, .. } => match pass(left, columns, rows, node + 1) {
            Ok(next) => pass(right, columns, rows, next),
            Err(shape) => Err(shape),
        },
    }
}

/// The first misfit of a node.
fn tree_misfit_of(tree: &Tree, columns: usize, rows: usize) -> Option<Shape>
    requires { node_count (plain tree.now) ≤ 1000000 }
    ensures { result ≡ tree_misfit columns rows (plain tree.now) }
{
    match pass(tree, columns, rows, 0) {
        Ok(_) => None,
        Err(shape) => Some(shape),
    }
}

/// The misfit of a claimed point of another length.
fn claim_misfit_of(claim: &Claim, columns: usize) -> Option<Shape>
    ensures { result ≡ claim_misfit columns claim.now }
{
    match claim {
        Claim::Best(point) => {
            if point.as_slice().len() == columns {
                None
            } else {
                Some(Shape {
                    node: 0,
                    what: ShapeWhat::PointLength,
                })
            }
        }
        Claim::Empty => None,
    }
}

/// The first misfit: of the point, then of the nodes.
fn first_misfit(model: &IntModel, proof: &Proof) -> Option<Shape>
    requires { node_count (plain proof.now.tree) ≤ 1000000 }
    ensures { result ≡ proof_misfit model.now proof.now }
{
    let columns = model.parts().columns.as_slice().len();
    let rows = model.parts().rows.as_slice().len();
    match claim_misfit_of(&proof.claim, columns) {
        Some(shape) => Some(shape),
        None => tree_misfit_of(&proof.tree, columns, rows),
    }
}

/// Whether a proof fits a model: a claimed point has one coordinate for each column, each split names a column of the model and each
/// multiplier a row. The error is the first misfit: of the point, with node 0, then of the nodes in preorder. Allocates nothing.
pub fn fits_model(model: &IntModel, proof: &Proof) -> Result<(), Shape>
    requires limits { IsTreeWithin (plain proof.now.tree) }
    ensures none { IfOk result (λ fine. proof_misfit model.now proof.now ≡ None) }
    ensures first { IfErr result (λ shape. proof_misfit model.now proof.now ≡ Some shape) }
    ensures point { IfOk result (λ fine. HasLength (length model.now.columns) proof.now.claim) }
    ensures tree { IfOk result (λ fine. FitsModel model.now (plain proof.now.tree)) }
{
    match first_misfit(model, proof) {
        Some(shape) => Err(shape),
        None => Ok(()),
    }
}
