//! The model of a draft, or the first fault of its columns and limits.

ghost use Rattle.std.specs.Prelude.{◌≡◌, ◌≤◌, ◌<◌, IfOk, List, ℕ, Some, length, neg_ℤ, slice_get, string_bytes, unwrap_or};
ghost use Rattle.std.specs.Option.{ForSome};
ghost use Rattle.decimals.specs.Decimals.{IsBelowLarge};
ghost use Rattle.ip_defs.specs.Limits.{IsWellShaped};
ghost use Rattle.mps_defs.specs.Records.{Line};
ghost use Rattle.mps_defs.specs.TextModels.{no_number, units as units_of};
ghost use Rattle.mps_reader.specs.Internal.Below.{AreRowsBelow, AreWithin, IsRowBelow};
ghost use Rattle.mps_reader.specs.Internal.Clamps.{clamped as clamped_of, clamped_parts};
ghost use Rattle.mps_reader.specs.Internal.Drafted.{AnswersFaults, drafted_column_faults, drafted_model};
ghost use Rattle.mps_reader.specs.Internal.Drafted.{drafted_row_names};
ghost use Rattle.mps_reader.specs.Internal.DraftModels.{HasCounts, IsFinished, IsLimited, IsMade};
ghost use Rattle.mps_defs.specs.TextModels.{IsHow};
ghost use Rattle.mps_reader.specs.Internal.Progress.{Stands};
ghost use Rattle.mps_reader.specs.declared.draft.RowDraft.{RowDraft};

use crate::clamps::clamped;
use crate::column_list::column_list;
use crate::column_rules::{Rule, check_columns};
use crate::draft::{Draft, RowDraft};
use crate::row_list::{NO_NUMBER, decimals_of, name_of, row_list};
use crate::sections::{Section, has_section};
use decimals::units;
use ip_defs::{Limit, Listed, Parts, What};
use ip_model::{IntModel, make};
use mps_defs::{How, MpsError};
use std::alloc::{AllocError, Global};

/// The most columns of a model.
const MOST_COLUMNS: usize = 4_096;

/// The first column that is not integer, else the first that lacks a bound, else the first with a negative upper bound.
fn check_draft(alloc: Global, draft: &Draft, how: How) -> Result<(), MpsError>
    requires how { IsHow how }
    requires counts { HasCounts draft.now }
    ensures { AnswersFaults (drafted_column_faults draft.now how) result }
{
    let names = draft.columns.names.as_slice();
    let columns = draft.columns.columns.as_slice();
    match check_columns(alloc, Rule::Integer, how, names, columns) {
        Ok(()) => {}
        Err(error) => return Err(error),
    }
    match check_columns(alloc, Rule::Bounded, how, names, columns) {
        Ok(()) => {}
        Err(error) => return Err(error),
    }
    check_columns(alloc, Rule::NotNegative, how, names, columns)
}

/// The constant: the negated right side of the objective.
fn constant_of(row: &RowDraft, decimals: u8) -> i64
    requires decimals { decimals ≤ 9 }
    requires below { ForSome row.now.right_side IsBelowLarge }
    ensures { result ≡ clamped_of (neg_ℤ (units_of decimals (unwrap_or row.now.right_side no_number))) }
{
    clamped(0_i128.saturating_sub(units(row.right_side.unwrap_or(NO_NUMBER), decimals)))
}

/// The parts of a draft with its objective, each number clamped.
fn parts_of(alloc: Global, draft: &Draft, objective: usize, how: How) -> Result<Parts, AllocError>
    requires how { IsHow how }
    requires counts { HasCounts draft.now }
    requires below { AreRowsBelow draft.now.rows.rows.items }
    requires objective { objective < length draft.now.rows.rows.items }
    ensures { (name : List ℕ) (r : RowDraft) → slice_get (drafted_row_names draft.now) objective ≡ Some name
        → slice_get draft.now.rows.rows.items objective ≡ Some r
        → IfOk result (λ m. m ≡ clamped_parts (drafted_model draft.now how name r)) }
{
    let row = &draft.rows.rows[objective];
    let names = draft.rows.names.as_slice();
    let decimals = decimals_of(row, how);
    let columns = column_list(
        alloc,
        draft.columns.names.as_slice(),
        draft.columns.columns.as_slice(),
        row.entries.as_slice(),
        decimals,
        how,
    )?;
    let rows = row_list(alloc, names, draft.rows.rows.as_slice(), how)?;
    Ok(Parts {
        objective: name_of(alloc, names[objective].as_str())?,
        cost_decimals: decimals,
        constant: constant_of(row, decimals),
        columns: Listed::from_vec(columns),
        rows: Listed::from_vec(rows),
    })
}

/// The model of parts, or the first limit that they exceed.
fn limited(parts: Parts) -> Result<IntModel, MpsError>
    requires { IsWellShaped parts }
    ensures { IsMade parts result }
{
    match make(parts) {
        Ok(model) => Ok(model),
        Err((_, limit)) => Err(MpsError::Limit { limit }),
    }
}

/// The model of a draft with its objective, or the first limit that it exceeds. Too many columns come first.
fn model_within(
    alloc: Global,
    draft: &Draft,
    objective: usize,
    how: How,
) -> Result<IntModel, MpsError>
    requires how { IsHow how }
    requires counts { HasCounts draft.now }
    requires below { length draft.now.columns.columns.items ≤ 4096 → AreRowsBelow draft.now.rows.rows.items }
    requires objective { objective < length draft.now.rows.rows.items }
    requires shaped { (name : List ℕ) × (r : RowDraft) × (slice_get (drafted_row_names draft.now) objective ≡ Some name)
        × (slice_get draft.now.rows.rows.items objective ≡ Some r) × IsWellShaped (clamped_parts (drafted_model draft.now how name r)) }
    ensures { (name : List ℕ) (r : RowDraft) → slice_get (drafted_row_names draft.now) objective ≡ Some name
        → slice_get draft.now.rows.rows.items objective ≡ Some r → IsLimited (drafted_model draft.now how name r) result }
{
    if draft.columns.columns.len() > MOST_COLUMNS {
        return Err(MpsError::Limit {
            limit: Limit {
                what: What::Columns,
                index: 0,
            },
        });
    }
    match parts_of(alloc, draft, objective, how) {
        Ok(parts) => limited(parts),
        Err(_) => Err(MpsError::Memory),
    }
}

/// The model of a draft of all lines, or the first fault of the whole: no ENDATA, no objective, then the columns, then the limits.
pub fn model_of(alloc: Global, draft: &Draft, how: How) -> Result<IntModel, MpsError>
    requires how { IsHow how }
    requires stands { (ls : List Line) × Stands ls draft.now }
    ensures { (ls : List Line) → Stands ls draft.now → IsFinished ls how result }
{
    if !has_section(draft.sections.as_slice(), Section::End) {
        return Err(MpsError::NoEnd);
    }
    let objective = match draft.rows.objective {
        Some(objective) => objective,
        None => return Err(MpsError::NoObjective),
    };
    match check_draft(alloc, draft, how) {
        Ok(()) => model_within(alloc, draft, objective, how),
        Err(error) => Err(error),
    }
}
