//! The canonical text of a model.

ghost use Rattle.std.specs.Prelude.{◌≡◌, IfOk, string_bytes};
ghost use Rattle.ip_defs.specs.Limits.{IsWithinLimits};
ghost use Rattle.mps_defs.specs.CanonicalText.{canonical_text};

use crate::columns::{push_bound_section, push_column_section};
use crate::lines::push_head;
use crate::rows::{push_range_section, push_row_section, push_side_section};
use ip_defs::{Memory, Parts};
use ip_model::IntModel;
use std::alloc::Global;

/// The sections of the text in their order.
fn text_of(alloc: Global, parts: &Parts) -> Result<String, Memory>
    requires { IsWithinLimits parts.now }
    ensures { IfOk result (λ text. string_bytes text ≡ canonical_text parts.now) }
{
    let mut text = String::new(alloc);
    push_row_section(&mut text, parts)?;
    push_column_section(alloc, &mut text, parts)?;
    push_side_section(alloc, &mut text, parts)?;
    push_range_section(alloc, &mut text, parts)?;
    push_bound_section(alloc, &mut text, parts)?;
    push_head(&mut text, "ENDATA")?;
    Ok(text)
}

/// The canonical MPS text of a model, as bytes: NAME, ROWS, COLUMNS, RHS, RANGES, BOUNDS and ENDATA, with each amount in the units of
/// its row or of the costs. It is defined for every model; it can be read back where the model is printable. The only error is want of
/// memory. The time is that of the text and of one walk through the coefficients.
pub fn print(alloc: Global, model: &IntModel) -> Result<Vec<u8>, Memory>
    ensures { IfOk result (λ bytes. bytes.items ≡ canonical_text model.now) }
{
    let text = text_of(alloc, model.parts())?;
    Ok(text.into_bytes())
}
