//! The columns of the model of a draft.

ghost use Rattle.std.specs.Prelude.{◌≡◌, ◌≤◌, ◌≤ℤ◌, ◌^◌, IfOk, drop, length, map, option_map, pos, string_bytes, unwrap_or};
ghost use Rattle.std.specs.Option.{ForSome};
ghost use Rattle.decimals.specs.Decimals.{IsBelowLarge};
ghost use Rattle.mps_defs.specs.TextModels.{box_high as box_high_of, box_low as box_low_of, no_number, units as units_of};
ghost use Rattle.mps_reader.specs.Internal.Below.{AreBelowLarge};
ghost use Rattle.mps_reader.specs.Internal.Clamps.{clamped as clamped_of, clamped_column};
ghost use Rattle.mps_reader.specs.Internal.Drafted.{cost_head, cost_rest, drafted_column, drafted_columns, drafted_lower, drafted_upper};
ghost use Rattle.mps_defs.specs.TextModels.{IsHow};

use crate::clamps::clamped;
use crate::draft::ColumnDraft;
use crate::row_list::{NO_NUMBER, name_of};
use decimals::units;
use ip_defs::Column;
use mps_defs::{How, Number};
use std::alloc::{AllocError, Global};

/// The lower side of a column: 0 where no bound is for it, and none where its last bound takes it away.
pub fn lower_of(column: &ColumnDraft) -> Option<i128>
    ensures { result ≡ drafted_lower column.now }
{
    match column.lower {
        None => Some(0),
        Some(side) => side,
    }
}

/// The upper side of a column, where its last bound gives one.
pub fn upper_of(column: &ColumnDraft) -> Option<i128>
    ensures { result ≡ drafted_upper column.now }
{
    match column.upper {
        None => None,
        Some(bound) => bound.side,
    }
}

/// The lower side that an absent one becomes.
fn box_low(how: How) -> i128
    requires { IsHow how }
    ensures { result ≡ box_low_of how }
{
    match how.box_side {
        None => 0,
        Some(side) => -i128::from(side),
    }
}

/// The upper side that an absent one becomes.
fn box_high(how: How) -> i128
    ensures { result ≡ box_high_of how }
{
    match how.box_side {
        None => 0,
        Some(side) => i128::from(side),
    }
}

/// A column of the model.
fn column_of(
    alloc: Global,
    name: &str,
    column: &ColumnDraft,
    cost: Option<Number>,
    decimals: u8,
    how: How,
) -> Result<Column, AllocError>
    requires how { IsHow how }
    requires decimals { decimals ≤ 9 }
    requires below { ForSome cost IsBelowLarge }
    ensures { IfOk result (λ c. c ≡ clamped_column (drafted_column how decimals name.now cost column.now)) }
{
    Ok(Column {
        name: name_of(alloc, name)?,
        cost: clamped(units(cost.unwrap_or(NO_NUMBER), decimals)),
        lo: clamped(lower_of(column).unwrap_or(box_low(how))),
        hi: clamped(upper_of(column).unwrap_or(box_high(how))),
    })
}

/// The cost of a column where the costs from a place on begin with it.
fn cost_at(costs: &[(usize, Number)], next: usize, column: usize) -> Option<Number>
    requires { AreBelowLarge costs.now }
    ensures cost { result ≡ cost_head column (drop next costs.now) }
    ensures below { ForSome result IsBelowLarge }
{
    match costs.get(next) {
        Some(first) => if first.0 == column {
            Some(first.1)
        } else {
            None
        },
        None => None,
    }
}

/// The columns of the model, with the costs by rising column number.
pub fn column_list(
    alloc: Global,
    names: &[String],
    columns: &[ColumnDraft],
    costs: &[(usize, Number)],
    decimals: u8,
    how: How,
) -> Result<Vec<Column>, AllocError>
    requires how { IsHow how }
    requires decimals { decimals ≤ 9 }
    requires below { AreBelowLarge costs.now }
    requires names { length names.now ≡ length columns.now }
    ensures { IfOk result (λ v. v.items
        ≡ map clamped_column (drafted_columns how decimals 0 costs.now (map string_bytes names.now) columns.now)) }
{
    let mut list = Vec::new(alloc);
    let mut next = 0;
    for (j, column) in columns.iter().enumerate() {
        let cost = cost_at(costs, next, j);
        if cost.is_some() {
            next += 1;
        }
        list.push(column_of(alloc, names[j].as_str(), column, cost, decimals, how)?)?;
    }
    Ok(list)
}
