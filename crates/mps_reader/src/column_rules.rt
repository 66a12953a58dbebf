//! What each column must meet once the text is read: it is integer, it has its bounds, and its upper bound is no surprise.

ghost use Rattle.std.specs.Prelude.{◌≡◌, length, map, string_bytes};
ghost use Rattle.mps_defs.specs.Faults.{lower_is_missing as lower_is_missing_of, upper_is_missing as upper_is_missing_of};
ghost use Rattle.mps_reader.specs.Internal.Drafted.{AnswersFaults, asked, missing_sides, column_faults};
ghost use Rattle.mps_reader.specs.Internal.Drafted.{is_negative_bound as is_negative_bound_of};
ghost use Rattle.mps_defs.specs.TextModels.{IsHow};

use crate::column_list::{lower_of, upper_of};
use crate::draft::{ColumnDraft, UpperBound};
use crate::row_list::name_of;
use mps_defs::{How, MpsError, Side};
use std::alloc::Global;

/// What is asked of each column once the text is read.
#[derive(Clone, Copy, Debug, PartialEq, Eq)]
pub enum Rule {
    /// It is integer.
    Integer,
    /// It has both bounds, or the box side takes the place of a missing one.
    Bounded,
    /// Its last upper bound is not UP or UI with a negative number, where no line gives its lower bound.
    NotNegative,
}

/// Whether the lower bound is missing and the box side cannot take its place.
fn lower_is_missing(how: How, lower: Option<i128>, upper: Option<i128>) -> bool
    requires { IsHow how }
    ensures { result ≡ lower_is_missing_of how.box_side lower upper }
{
    match (lower, how.box_side, upper) {
        (None, None, _) => true,
        (None, Some(side), Some(upper)) => upper < -i128::from(side),
        _ => false,
    }
}

/// Whether the upper bound is missing and the box side cannot take its place.
fn upper_is_missing(how: How, lower: Option<i128>, upper: Option<i128>) -> bool
    ensures { result ≡ upper_is_missing_of how.box_side lower upper }
{
    match (upper, how.box_side, lower) {
        (None, None, _) => true,
        (None, Some(side), Some(lower)) => i128::from(side) < lower,
        _ => false,
    }
}

/// Whether the last upper bound is UP or UI with a negative number.
fn is_negative_bound(upper: Option<UpperBound>) -> bool
    ensures { result ≡ is_negative_bound_of upper }
{
    match upper {
        None => false,
        Some(bound) => bound.is_negative,
    }
}

/// Refuses a column that lacks a bound, the lower one first.
fn check_sides(alloc: Global, how: How, name: &str, column: &ColumnDraft) -> Result<(), MpsError>
    requires { IsHow how }
    ensures { AnswersFaults (missing_sides how name.now column.now) result }
{
    let lower = lower_of(column);
    let upper = upper_of(column);
    if lower_is_missing(how, lower, upper) {
        return Err(MpsError::NoBound {
            column: name_of(alloc, name)?,
            side: Side::Lower,
        });
    }
    if upper_is_missing(how, lower, upper) {
        return Err(MpsError::NoBound {
            column: name_of(alloc, name)?,
            side: Side::Upper,
        });
    }
    Ok(())
}

/// Refuses a column that does not meet a rule.
fn check_column(
    alloc: Global,
    rule: Rule,
    how: How,
    name: &str,
    column: &ColumnDraft,
) -> Result<(), MpsError>
    requires { IsHow how }
    ensures { AnswersFaults (asked rule how name.now column.now) result }
{
    match rule {
        Rule::Integer => if column.is_integer {
            Ok(())
        } else {
            Err(MpsError::Continuous {
                column: name_of(alloc, name)?,
            })
        },
        Rule::Bounded => check_sides(alloc, how, name, column),
        Rule::NotNegative => if column.lower.is_none() && is_negative_bound(column.upper) {
            Err(MpsError::NegativeUpper {
                column: name_of(alloc, name)?,
            })
        } else {
            Ok(())
        },
    }
}

/// Refuses the first column that does not meet a rule.
pub fn check_columns(
    alloc: Global,
    rule: Rule,
    how: How,
    names: &[String],
    columns: &[ColumnDraft],
) -> Result<(), MpsError>
    requires how { IsHow how }
    requires names { length names.now ≡ length columns.now }
    ensures { AnswersFaults (column_faults (asked rule how) (map string_bytes names.now) columns.now) result }
{
    for (j, column) in columns.iter().enumerate() {
        match check_column(alloc, rule, how, names[j].as_str(), column) {
            Ok(()) => {}
            Err(error) => return Err(error),
        }
    }
    Ok(())
}
