//! The command `show`: the canonical text of a model is printed.

ghost use Rattle.std.specs.Prelude.{IfOk};
ghost use Rattle.ipsens_core.specs.Internal.Made.{answer_of};
ghost use Rattle.ipsens_core.specs.Show.{IsShown};

use crate::answers::{Made, says};
use crate::model_refusals::UNPRINTABLE;
use crate::statuses::Status;
use ip_defs::Memory;
use ip_model::IntModel;
use mps_printer::{print, printable};
use std::alloc::Global;

/// The canonical text of a model, or that it has none.
pub fn shown<'a>(alloc: Global, model: &IntModel) -> Result<Made<'a>, Memory>
    ensures { IfOk result (λ made. IsShown model.now (answer_of made)) }
{
    if printable(model) {
        let text = print(alloc, model)?;
        Ok(says(Status::Answered, text))
    } else {
        let text = String::from_str(alloc, UNPRINTABLE)?;
        Ok(says(Status::Refused, text.into_bytes()))
    }
}
