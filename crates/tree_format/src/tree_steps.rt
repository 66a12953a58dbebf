//! Reading a tree that stands at a place of bytes, whose nodes are counted with those before it.
ghost use Rattle.std.specs.Prelude.{◌≡◌, ◌^◌, ◌≤◌, ◌<◌, ◌∷◌, [], ◌++◌, length, drop, IfOk, IfErr};
ghost use Rattle.std.specs.Int.RustNames.{unsigned_abs};
ghost use Rattle.proof_tree.specs.LabelledTrees.{split};
ghost use Rattle.proof_tree.specs.Trees.{plain};
ghost use Rattle.tree_format.specs.Grammar.{split_at, tree_at};
ghost use Rattle.tree_format.specs.Spellings.{number, signed_number, tree_bytes};
ghost use Rattle.tree_format.specs.Internal.Steps.{Stands, IsFault, IsValueFault, IsTreeStep, tag_of};

use crate::cert_steps::read_cert;
use crate::number_steps::{read_byte, read_number, read_signed};
use crate::progress::MOST_NODES;
use crate::{Tree, TreeError};
use std::alloc::Global;

/// The kinds of nodes.
#[derive(Clone, Copy)]
pub(crate) enum Kind {
    Leaf,
    Split,
}

/// The kind of the node at a place, for which some levels are left and before which some nodes stand.
fn read_kind(bytes: &[u8], at: &mut usize, levels: u32, nodes: u32) -> Result<Kind, TreeError>
    requires within { at.old ≤ length bytes.now }
    ensures some { IfOk result (λ kind. (0 < levels) × (nodes < 1000000)) }
    ensures on { IfOk result (λ kind. Stands bytes.now at.old at.new (tag_of kind ∷ [])) }
    ensures fault { IfErr result (λ e. IsValueFault (tree_at levels nodes at.old (drop at.old bytes.now)) e) }
{
    let place = *at as u64;
    let tag = match read_byte(bytes, at) {
        Ok(tag) => tag,
        Err(fault) => return Err(fault),
    };
    if nodes >= MOST_NODES {
        return Err(TreeError::TooMany { place });
    }
    if levels == 0 {
        return Err(TreeError::TooDeep { place });
    }
    if tag == b'L' {
        Ok(Kind::Leaf)
    } else if tag == b'S' {
        Ok(Kind::Split)
    } else {
        Err(TreeError::Tag { place })
    }
}

/// The column and the number of a split.
fn read_split(bytes: &[u8], at: &mut usize) -> Result<(u32, i64), TreeError>
    requires within { at.old ≤ length bytes.now }
    ensures within { IfOk result (λ s. (s.0 ≤ 4095) × (unsigned_abs s.1 ≤ 2 ^ 24)) }
    ensures on { IfOk result (λ s. Stands bytes.now at.old at.new (number s.0 ++ signed_number s.1)) }
    ensures fault { IfErr result (λ e. IsFault (split_at at.old (drop at.old bytes.now)) e) }
{
    let col = match read_number(bytes, at, 4095) {
        Ok(col) => col as u32,
        Err(fault) => return Err(fault),
    };
    match read_signed(bytes, at, 1 << 24) {
        Ok(cut) => Ok((col, cut)),
        Err(fault) => Err(fault),
    }
}

/// A split with its two sides.
fn joined(alloc: Global, col: u32, at: i64, left: Tree, right: Tree) -> Result<Tree, TreeError>
    ensures split { IfOk result (λ t. plain t ≡ split col at tt (plain left) (plain right)) }
    ensures memory { IfErr result (λ e. e ≡ TreeError.Memory) }
{
    let left = Box::new(alloc, left)?;
    let right = Box::new(alloc, right)?;
    Ok(Tree::Split {
        col,
        at,
        left,
        right,
    })
}

/// The tree at a place, of at most some levels, and the place after it; or its fault. The nodes before it are counted with its own.
pub(crate) fn read_tree(
    alloc: Global,
    bytes: &[u8],
    at: &mut usize,
    levels: u32,
    nodes: &mut u32,
) -> Result<Tree, TreeError>
    requires within { at.old ≤ length bytes.now }
    ensures within { IfOk result (λ t. IsTreeStep levels nodes.old nodes.new (plain t)) }
    ensures on { IfOk result (λ t. Stands bytes.now at.old at.new (tree_bytes (plain t))) }
    ensures fault { IfErr result (λ e. IsValueFault (tree_at levels nodes.old at.old (drop at.old bytes.now)) e) }
{
    let kind = match read_kind(bytes, at, levels, *nodes) {
        Ok(kind) => kind,
        Err(fault) => return Err(fault),
    };
    *nodes += 1;
    match kind {
        Kind::Leaf => match read_cert(alloc, bytes, at) {
            Ok(cert) => Ok(Tree::Leaf(cert)),
            Err(fault) => Err(fault),
        },
        Kind::Split => {
            let (col, cut) = match read_split(bytes, at) {
                Ok(split) => split,
                Err(fault) => return Err(fault),
            };
            let left = match read_tree(alloc, bytes, at, levels - 1, nodes) {
                Ok(left) => left,
                Err(fault) => return Err(fault),
            };
            match read_tree(alloc, bytes, at, levels - 1, nodes) {
                Ok(right) => joined(alloc, col, cut, left, right),
                Err(fault) => Err(fault),
            }
        }
    }
}
