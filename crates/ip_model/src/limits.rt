//! The first limit that the parts of a program exceed.
ghost use Rattle.std.specs.Prelude.{◌≡◌, ◌^◌, ◌≤◌, false, length, flat_map, nat_lt, sum_by};
ghost use Rattle.std.specs.List.{enumerate_from, list_any};
ghost use Rattle.std.specs.Option.{option_map_or};
ghost use Rattle.ip_defs.specs.Lists.{first_of};
ghost use Rattle.ip_defs.specs.Limits.{exceeds, is_long, column_limits, row_limits, limits_of};
ghost use Rattle.ip_model.specs.Internal.LimitGroups.{count_limits, own_limits};

use ip_defs::{Column, Limit, Name, Parts, Row, What};

/// The most columns of a program.
const MOST_COLUMNS: usize = 4_096;

/// The most rows.
const MOST_ROWS: usize = 1_024;

/// The most coefficients in all rows.
const MOST_ENTRIES: usize = 200_000;

/// The greatest absolute value of a cost or a coefficient.
const LARGEST_COST: u64 = 1 << 40;

/// The greatest absolute value of a bound of a column.
const LARGEST_BOUND: u64 = 1 << 24;

/// The greatest absolute value of a side of a row and of the constant.
const LARGEST_SIDE: u64 = 1 << 62;

/// Whether a name has more than 255 bytes.
fn is_long_name(name: &Name) -> bool
    ensures { result ≡ is_long name.now }
{
    name.as_str().len() > 255
}

/// Whether a row has this side and its absolute value exceeds the limit.
fn is_large_side(side: Option<i64>) -> bool
    ensures { result ≡ option_map_or (exceeds (2 ^ 62)) side false }
{
    match side {
        Some(side) => side.unsigned_abs() > LARGEST_SIDE,
        None => false,
    }
}

/// Whether the absolute value of a coefficient exceeds the limit.
fn has_large_coef(coefs: &[(u32, i64)]) -> bool
    ensures { result ≡ list_any (λ c. exceeds (2 ^ 40) c.1) coefs.now }
{
    coefs
        .iter()
        .any(|entry| entry.1.unsigned_abs() > LARGEST_COST)
}

/// The first limit that a column exceeds.
fn column_limit(column: &Column, index: u32) -> Option<Limit>
    ensures { result ≡ first_of (column_limits (index, column.now)) }
{
    if is_long_name(&column.name) {
        return Some(Limit {
            what: What::Name,
            index,
        });
    }
    if column.cost.unsigned_abs() > LARGEST_COST {
        return Some(Limit {
            what: What::Cost,
            index,
        });
    }
    if column.lo.unsigned_abs() > LARGEST_BOUND {
        return Some(Limit {
            what: What::Lower,
            index,
        });
    }
    if column.hi.unsigned_abs() > LARGEST_BOUND {
        return Some(Limit {
            what: What::Upper,
            index,
        });
    }
    None
}

/// The first limit that a row exceeds.
fn row_limit(row: &Row, index: u32) -> Option<Limit>
    ensures { result ≡ first_of (row_limits (index, row.now)) }
{
    if is_long_name(&row.name) {
        return Some(Limit {
            what: What::RowName,
            index,
        });
    }
    if has_large_coef(row.coefs.as_slice()) {
        return Some(Limit {
            what: What::Coef,
            index,
        });
    }
    if is_large_side(row.low) || is_large_side(row.high) {
        return Some(Limit {
            what: What::Side,
            index,
        });
    }
    None
}

/// The first limit that one of the columns exceeds.
fn first_of_columns(columns: &[Column]) -> Option<Limit>
    requires { length columns.now ≤ 4096 }
    ensures { result ≡ first_of (flat_map column_limits (enumerate_from 0 columns.now)) }
{
    for (j, column) in columns.iter().enumerate() {
        match column_limit(column, j as u32) {
            Some(limit) => return Some(limit),
            None => {}
        }
    }
    None
}

/// The first limit that one of the rows exceeds.
fn first_of_rows(rows: &[Row]) -> Option<Limit>
    requires { length rows.now ≤ 1024 }
    ensures { result ≡ first_of (flat_map row_limits (enumerate_from 0 rows.now)) }
{
    for (i, row) in rows.iter().enumerate() {
        match row_limit(row, i as u32) {
            Some(limit) => return Some(limit),
            None => {}
        }
    }
    None
}

/// Whether the rows have more coefficients than the limit.
pub fn has_many_entries(rows: &[Row]) -> bool
    ensures { result ≡ nat_lt 200000 (sum_by (λ r. length r.coefs) rows.now) }
{
    let mut left = MOST_ENTRIES;
    for row in rows {
        let entries = row.coefs.as_slice().len();
        if entries > left {
            return true;
        }
        left -= entries;
    }
    false
}

/// The first count that exceeds its limit: columns, rows or coefficients.
fn count_limit(parts: &Parts) -> Option<Limit>
    ensures { result ≡ first_of (count_limits parts.now) }
{
    if parts.columns.as_slice().len() > MOST_COLUMNS {
        return Some(Limit {
            what: What::Columns,
            index: 0,
        });
    }
    if parts.rows.as_slice().len() > MOST_ROWS {
        return Some(Limit {
            what: What::Rows,
            index: 0,
        });
    }
    if has_many_entries(parts.rows.as_slice()) {
        return Some(Limit {
            what: What::Entries,
            index: 0,
        });
    }
    None
}

/// The first limit that the objective's name or the constant exceeds.
fn own_limit(parts: &Parts) -> Option<Limit>
    ensures { result ≡ first_of (own_limits parts.now) }
{
    if is_long_name(&parts.objective) {
        return Some(Limit {
            what: What::Objective,
            index: 0,
        });
    }
    if parts.constant.unsigned_abs() > LARGEST_SIDE {
        return Some(Limit {
            what: What::Constant,
            index: 0,
        });
    }
    None
}

/// The first limit that a program exceeds, in the order in which they are tested.
pub fn first_limit(parts: &Parts) -> Option<Limit>
    ensures { result ≡ first_of (limits_of parts.now) }
{
    if let Some(limit) = count_limit(parts) {
        return Some(limit);
    }
    if let Some(limit) = first_of_columns(parts.columns.as_slice()) {
        return Some(limit);
    }
    if let Some(limit) = first_of_rows(parts.rows.as_slice()) {
        return Some(limit);
    }
    own_limit(parts)
}
