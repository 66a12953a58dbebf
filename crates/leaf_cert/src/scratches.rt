//! A scratch for a model.
ghost use Rattle.std.specs.Prelude.{◌≡◌, IfOk};
ghost use Rattle.ip_defs.specs.Program.{box_of as box_of_parts};
ghost use Rattle.leaf_cert.specs.Scratches.{FitsScratch};

use crate::workspaces::Scratch;
use ip_defs::Memory;
use ip_model::{IntModel, box_of};
use std::alloc::Global;

/// A scratch for a model, with the model's box. The only error is out of memory.
pub fn scratch(alloc: Global, model: &IntModel) -> Result<Scratch, Memory>
    ensures area { IfOk result (λ s. s.area ≡ box_of_parts model.now) }
    ensures fits { IfOk result (FitsScratch model.now) }
{
    let area = box_of(alloc, model)?;
    let taken = vec![in alloc; 0; area.as_slice().len()]?;
    Ok(Scratch { area, taken })
}
