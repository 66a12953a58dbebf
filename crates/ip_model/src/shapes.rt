//! Whether the parts of a program are well shaped.
ghost use Rattle.std.specs.Prelude.{◌↔◌, IsTrue, length};
ghost use Rattle.ip_defs.specs.Limits.{AreOrdered, IsRowShaped, IsWellShaped};

use ip_defs::{Parts, Row};

/// The greatest number of decimals of a row or of the costs.
const MOST_DECIMALS: u8 = 9;

/// Whether the column numbers increase and are below `columns`, and no coefficient is 0.
fn are_ordered(coefs: &[(u32, i64)], columns: usize) -> bool
    ensures { IsTrue result ↔ AreOrdered columns coefs.now }
{
    let mut next = 0;
    for (column, coefficient) in coefs {
        let column = *column as usize;
        if column < next || column >= columns || *coefficient == 0 {
            return false;
        }
        next = column + 1;
    }
    true
}

/// Whether a row of a program with `columns` columns is well shaped.
fn is_row_shaped(row: &Row, columns: usize) -> bool
    ensures { IsTrue result ↔ IsRowShaped columns row.now }
{
    row.decimals <= MOST_DECIMALS && are_ordered(row.coefs.as_slice(), columns)
}

/// Whether a program is well shaped: in each row the column numbers increase and are below the number of columns, no coefficient is
/// 0, and neither a row nor the costs have more than 9 decimals.
pub fn well_shaped(parts: &Parts) -> bool
    ensures { IsTrue result ↔ IsWellShaped parts.now }
{
    if parts.cost_decimals > MOST_DECIMALS {
        return false;
    }
    let columns = parts.columns.as_slice().len();
    for row in parts.rows.as_slice() {
        if !is_row_shaped(row, columns) {
            return false;
        }
    }
    true
}
