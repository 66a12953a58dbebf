//! Files that are read, and texts that are written, in pieces of every length.

use crate::tests::runs::{checking, ends, solving, with_tree, writes};
use crate::tests::texts::{ODD, THREE_ROWS, THREE_ROWS_ANSWER};
use ipsens_core::Status;
use sample_models::{ONE_LEAF, TWO_SPLITS};
use std::alloc::Global;

#[test]
fn models_in_pieces(rt: HostRuntime) {
    let wanted = writes(Status::Answered, THREE_ROWS_ANSWER);
    for piece in [1, 7, 1000] {
        let given = solving(THREE_ROWS.as_bytes(), piece, piece);
        assert!(rt; ends(rt.alloc(), &given, &wanted), "pieces of {piece}");
    }
}

/// Whether a tree file is judged so in pieces of every length up to its own.
fn is_judged_in_pieces(alloc: Global, model: &str, tree: &[u8], text: &str) -> bool {
    let wanted = with_tree(Status::Answered, text);
    for piece in 1..=tree.len() {
        let given = checking(model.as_bytes(), tree, piece as u64, 100);
        if !ends(alloc, &given, &wanted) {
            return false;
        }
    }
    true
}

#[test]
fn trees_in_pieces(rt: HostRuntime) {
    assert!(rt; is_judged_in_pieces(rt.alloc(), THREE_ROWS, &ONE_LEAF, "proved -13\n"));
    assert!(rt; is_judged_in_pieces(rt.alloc(), ODD, &TWO_SPLITS, "proved empty\n"));
}
