//! What is taken from node to node.
ghost use Rattle.std.specs.Prelude.{IfOk};
ghost use Rattle.node_bounds.specs.Workspaces.{FitsWorkspace};

use crate::choosers::Chooser;
use ip_defs::Memory;
use ip_model::IntModel;
use leaf_cert::{Scratch, scratch};
use std::alloc::Global;

/// What is taken from node to node: memory, and which columns to split.
#[derive(Drop)]
pub struct Workspace {
    /// Memory for the bounds of certificates.
    pub scratch: Scratch,
    /// Memory for the check of a point: a number for each column. What the numbers are does not matter.
    pub numbers: Vec<i128>,
    /// Which column is split.
    pub chooser: Chooser,
}

impl Workspace {
    /// A workspace for the nodes of a model.
    pub fn new(alloc: Global, model: &IntModel) -> Result<Workspace, Memory>
        ensures { IfOk result (FitsWorkspace model.now) }
    {
        let scratch = scratch(alloc, model)?;
        let columns = model.parts().columns.as_slice().len();
        let numbers = vec![in alloc; 0; columns]?;
        Ok(Workspace {
            scratch,
            numbers,
            chooser: Chooser::new(alloc, columns)?,
        })
    }
}
