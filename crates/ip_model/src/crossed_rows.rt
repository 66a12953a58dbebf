//! Crossed rows: those whose low side is above their high side.
ghost use Rattle.std.specs.Prelude.{◌≡◌, position};
ghost use Rattle.ip_defs.specs.Program.{is_crossed};
ghost use Rattle.ip_model.specs.Sizes.{first_crossed};

use crate::models::IntModel;
use ip_defs::Row;

/// Whether a row has both sides, with the low side above the high side.
fn is_row_crossed(row: &Row) -> bool
    ensures { result ≡ is_crossed row.now }
{
    match (row.low, row.high) {
        (Some(low), Some(high)) => high < low,
        _ => false,
    }
}

/// The index of the first crossed row.
fn crossed_index(rows: &[Row]) -> Option<usize>
    ensures { result ≡ position is_crossed rows.now }
{
    rows.iter().position(|row| is_row_crossed(row))
}

/// The number of the first row that has both sides, with the low side above the high side. None is the answer exactly where there is
/// no such row.
pub fn crossed(model: &IntModel) -> Option<u32>
    ensures { result ≡ first_crossed model.now }
{
    match crossed_index(model.parts().rows.as_slice()) {
        Some(i) => Some(i as u32),
        None => None,
    }
}
