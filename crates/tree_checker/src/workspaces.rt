//! The memory for the bounds of leaves while a proof is walked through.
ghost use Rattle.std.specs.Prelude.{IfOk};
ghost use Rattle.tree_checker.specs.Internal.Workspaces.{FitsWorkspace};

use crate::blanks::Blanks;
use ip_defs::Memory;
use ip_model::IntModel;
use leaf_cert::{Scratch, scratch};
use std::alloc::Global;

/// Memory for the bounds of leaves. What it holds between two calls does not matter.
#[derive(Drop)]
pub(crate) struct Workspace {
    pub(crate) blanks: Blanks,
    pub(crate) scratch: Scratch,
}

/// A workspace for a model. The only call that takes memory.
pub(crate) fn workspace_for(alloc: Global, model: &IntModel) -> Result<Workspace, Memory>
    ensures { IfOk result (λ w. FitsWorkspace model.now w) }
{
    let rows = model.parts().rows.as_slice().len();
    Ok(Workspace {
        blanks: Blanks::new(alloc, rows)?,
        scratch: scratch(alloc, model)?,
    })
}
