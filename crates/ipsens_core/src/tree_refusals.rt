//! The printed text of the refusal of a tree file, and of the file of a sweep's proof.

ghost use Rattle.std.specs.Prelude.{◌≡◌, ◌++◌, IfOk, IfSome, string_bytes};
ghost use Rattle.ipsens_core.specs.Refusals.{refused};
ghost use Rattle.ipsens_core.specs.TreeRefusals.{at_place, fault_text, misfit_text, misfit_word as word_of_misfit, refused_tree};

use crate::refusals::refused_at;
use ip_defs::Memory;
use std::alloc::{AllocError, Global};
use tree_checker::{Shape, ShapeWhat, TreeError};

/// What is printed for a tree file that is too long.
pub const TREE_TOO_LONG: &str = "refused tree too long\n";

/// The word of a fault, and its place; none where memory ran out.
fn fault_at(fault: TreeError) -> Option<(&'static str, u64)>
    ensures { IfSome result (λ at. fault_text fault ≡ at.0.now ++ at_place at.1) }
{
    match fault {
        TreeError::Magic { place } => Some(("F1", place)),
        TreeError::Cut { place } => Some(("F2", place)),
        TreeError::LongNumber { place } => Some(("F3", place)),
        TreeError::Order { place } => Some(("F4", place)),
        TreeError::Zero { place } => Some(("F5", place)),
        TreeError::Width { place } => Some(("F6", place)),
        TreeError::TooDeep { place } => Some(("F7", place)),
        TreeError::TooMany { place } => Some(("F8", place)),
        TreeError::Tail { place } => Some(("F9", place)),
        TreeError::Tag { place } => Some(("F10", place)),
        TreeError::Memory => None,
    }
}

/// The line of a file with a fault in its bytes. The file is `tree` or `proof`.
pub fn fault_line(alloc: Global, file: &str, fault: TreeError) -> Result<String, Memory>
    ensures { IfOk result (λ s. string_bytes s ≡ refused file.now (fault_text fault)) }
{
    match fault_at(fault) {
        Some((word, place)) => refused_at(alloc, file, word, "place", place),
        None => Err(Memory),
    }
}

fn misfit_word(what: ShapeWhat) -> &'static str
    ensures { result.now ≡ word_of_misfit what }
{
    match what {
        ShapeWhat::PointLength => "point",
        ShapeWhat::ColumnNumber => "column",
        ShapeWhat::RowNumber => "row",
    }
}

/// The line of a tree file whose proof does not fit the model.
pub fn misfit_line(alloc: Global, shape: Shape) -> Result<String, AllocError>
    ensures { IfOk result (λ s. string_bytes s ≡ refused_tree (misfit_text shape)) }
{
    let node = shape.node;
    let mut line = format!(in alloc; "refused tree shape node {node} ")?;
    line.push_str(misfit_word(shape.what))?;
    line.push_str("\n")?;
    Ok(line)
}
