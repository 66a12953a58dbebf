//! The models along a direction of the costs.

ghost use Rattle.std.specs.Prelude.{◌≡◌, ◌≤◌, ◌<◌, ◌^◌, ◌+ℤ◌, ◌*ℤ◌, ◌<ℤ◌, ◌++◌, ◌∷◌, [], ℕ, IfOk, OnOk, Some, length, pos};
ghost use Rattle.std.specs.Prelude.{slice_get};
ghost use Rattle.std.specs.Int.RustNames.{unsigned_abs};
ghost use Rattle.ip_defs.specs.declared.programs.Column.{Column as ColumnOf};
ghost use Rattle.ip_defs.specs.Program.{at};
ghost use Rattle.ip_model.specs.Places.{with_cost};
ghost use Rattle.perturbation.specs.Lines.{IsLineAnswer, columns_at as columns_at_of, cost_line_of, first_large_cost, unless_large};
ghost use Rattle.perturbation.specs.Lines.{without_constant as without_constant_of};

use crate::copies::{copied_name, copied_rows, made};
use crate::edits::LineError;
use ip_defs::{Column, ColumnList, Memory, Parts};
use ip_model::{IntModel, product, total_of};
use std::alloc::Global;

/// The greatest absolute value of a cost.
const LARGEST_COST: u128 = 1 << 40;

/// The product of a part of a parameter and a cost.
fn part(factor: i128, cost: i64) -> i128
    requires factor { unsigned_abs factor ≤ 2 ^ 80 }
    requires cost { unsigned_abs cost ≤ 2 ^ 40 }
    ensures value { result ≡ factor *ℤ cost }
    ensures small { unsigned_abs result ≤ 2 ^ 120 }
{
    product(factor, i128::from(cost))
}

/// The cost `q * cost + p * step`.
fn cost_at(cost: i64, step: i64, p: i128, q: i128) -> i128
    requires cost { unsigned_abs cost ≤ 2 ^ 40 }
    requires step { unsigned_abs step ≤ 2 ^ 40 }
    requires p { unsigned_abs p ≤ 2 ^ 80 }
    requires q { unsigned_abs q ≤ 2 ^ 80 }
    ensures { result ≡ q *ℤ cost +ℤ p *ℤ step }
{
    total_of(part(q, cost), part(p, step))
}

/// Appends a copy of a column with another cost of at most 2^40 in absolute value.
fn push_column(
    alloc: Global,
    moved: &mut ColumnList,
    column: &Column,
    cost: i128,
) -> Result<(), Memory>
    requires { unsigned_abs cost ≤ 2 ^ 40 }
    ensures { OnOk result (moved.new ≡ moved.old ++ with_cost (λ old. cost) column.now ∷ []) }
{
    moved.push(Column {
        name: copied_name(alloc, &column.name)?,
        cost: cost as i64,
        lo: column.lo,
        hi: column.hi,
    })?;
    Ok(())
}

/// Copies of the columns with their costs along a direction, or the first column whose cost exceeds the limit.
fn columns_at(
    alloc: Global,
    columns: &[Column],
    dir: &[i64],
    p: i128,
    q: i128,
) -> Result<ColumnList, LineError>
    requires size { length dir.now ≡ length columns.now }
    requires count { length columns.now ≤ 4096 }
    requires columns { (j : ℕ) (c : ColumnOf) → slice_get columns.now j ≡ Some c → unsigned_abs c.cost ≤ 2 ^ 40 }
    requires steps { (j : ℕ) → j < length dir.now → unsigned_abs (at dir.now j) ≤ 2 ^ 40 }
    requires p { unsigned_abs p ≤ 2 ^ 80 }
    requires q { unsigned_abs q ≤ 2 ^ 80 }
    ensures { IsLineAnswer (unless_large (first_large_cost (columns_at_of columns.now dir.now p q)) (columns_at_of columns.now dir.now p q))
        result }
{
    let mut moved = ColumnList::from_vec(Vec::new(alloc));
    for (j, column) in columns.iter().enumerate() {
        let cost = cost_at(column.cost, dir[j], p, q);
        if cost.unsigned_abs() > LARGEST_COST {
            return Err(LineError::Limit { column: j as u32 });
        }
        push_column(alloc, &mut moved, column, cost)?;
    }
    Ok(moved)
}

/// A copy of a program with other columns and the constant 0.
fn without_constant(alloc: Global, parts: &Parts, columns: ColumnList) -> Result<Parts, Memory>
    ensures { IfOk result (λ m. m ≡ without_constant_of parts.now columns) }
{
    Ok(Parts {
        objective: copied_name(alloc, &parts.objective)?,
        cost_decimals: parts.cost_decimals,
        constant: 0,
        columns,
        rows: copied_rows(alloc, parts.rows.as_slice())?,
    })
}

/// The model at the parameter p/q of a direction of the costs, with one number for each column: its costs are `q * cost + p * direction`
/// and its constant is 0. `Limit` comes where a cost exceeds 2^40 in absolute value, with the first such column.
pub fn cost_line(
    alloc: Global,
    model: &IntModel,
    dir: &[i64],
    p: i128,
    q: i128,
) -> Result<IntModel, LineError>
    requires size { length dir.now ≡ length model.now.columns }
    requires steps { (j : ℕ) → j < length dir.now → unsigned_abs (at dir.now j) ≤ 2 ^ 40 }
    requires p { unsigned_abs p ≤ 2 ^ 80 }
    requires q { unsigned_abs q ≤ 2 ^ 80 }
    requires positive { pos 0 <ℤ q }
    ensures { IsLineAnswer (cost_line_of model.now dir.now p q) result }
{
    let parts = model.parts();
    let columns = match columns_at(alloc, parts.columns.as_slice(), dir, p, q) {
        Ok(columns) => columns,
        Err(error) => return Err(error),
    };
    match made(without_constant(alloc, parts, columns)?) {
        Some(model) => Ok(model),
        None => Err(LineError::Memory),
    }
}
