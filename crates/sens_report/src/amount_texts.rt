//! Amounts that may not exist, as they are printed: a bound that may be infinite, a cost that may be that of no point.

ghost use Rattle.std.specs.Prelude.{◌≡◌, IfOk, string_bytes};
ghost use Rattle.sens_report.specs.AmountTexts.{amount_text as text_of_amount, bound_text as text_of_bound};

use decimals::decimal_text;
use ip_defs::{Bound, Memory};
use std::alloc::Global;

/// The text of an amount in units with decimals, or that there is none.
pub fn amount_text(alloc: Global, amount: Option<i128>, decimals: u8) -> Result<String, Memory>
    ensures { IfOk result (λ s. string_bytes s ≡ text_of_amount amount decimals) }
{
    match amount {
        Some(units) => decimal_text(alloc, units, decimals),
        None => Ok(String::from_str(alloc, "empty")?),
    }
}

/// The text of a bound in units with decimals.
pub fn bound_text(alloc: Global, bound: Bound, decimals: u8) -> Result<String, Memory>
    ensures { IfOk result (λ s. string_bytes s ≡ text_of_bound bound decimals) }
{
    match bound {
        Bound::At(units) => amount_text(alloc, Some(units), decimals),
        Bound::Infinite => amount_text(alloc, None, decimals),
    }
}
