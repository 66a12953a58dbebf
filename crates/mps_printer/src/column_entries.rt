//! The coefficients of a model by column, gathered in one walk through its rows.

ghost use Rattle.std.specs.Prelude.{◌≡◌, ◌++◌, ◌<◌, ◌≤◌, ◌^◌, ℕ, IfOk, OnOk, [], length, slice_index_or};
ghost use Rattle.ip_defs.specs.Limits.{AreOrdered, IsWithinLimits};
ghost use Rattle.mps_printer.specs.Internal.Entries.{column_entries, listed_for};

use ip_defs::{Coefs, Memory, Parts};
use std::alloc::Global;

/// That number of empty lists.
fn empty_lists(alloc: Global, count: usize) -> Result<Vec<Coefs>, Memory>
    ensures length { IfOk result (λ v. length v.items ≡ count) }
    ensures empty { IfOk result (λ v. (j : ℕ) → j < count → slice_index_or v.items j [] ≡ []) }
{
    let mut lists = Vec::new(alloc);
    for _ in 0..count {
        lists.push(Coefs::from_vec(Vec::new(alloc)))?;
    }
    Ok(lists)
}

/// Adds the coefficients of a row, each with the number of the row, to the lists of their columns.
fn push_row(lists: &mut Vec<Coefs>, row: u32, coefs: &[(u32, i64)]) -> Result<(), Memory>
    requires { AreOrdered (length lists.old.items) coefs.now }
    ensures length { length lists.new.items ≡ length lists.old.items }
    ensures lists { OnOk result ((j : ℕ) → j < length lists.old.items
        → slice_index_or lists.new.items j [] ≡ slice_index_or lists.old.items j [] ++ listed_for j row coefs.now) }
{
    for (column, coefficient) in coefs {
        lists[*column as usize].push((row, *coefficient))?;
    }
    Ok(())
}

/// The coefficients of each column, each with the number of its row, in order of rows: one walk through the rows. The only error is
/// being out of memory.
pub fn entries_by_column(alloc: Global, parts: &Parts) -> Result<Vec<Coefs>, Memory>
    requires { IsWithinLimits parts.now }
    ensures length { IfOk result (λ v. length v.items ≡ length parts.now.columns) }
    ensures lists { IfOk result (λ v. (j : ℕ) → j < length parts.now.columns
        → slice_index_or v.items j [] ≡ column_entries j 0 parts.now.rows) }
{
    let mut lists = empty_lists(alloc, parts.columns.as_slice().len())?;
    for (i, row) in parts.rows.as_slice().iter().enumerate() {
        push_row(&mut lists, i as u32, row.coefs.as_slice())?;
    }
    Ok(lists)
}
