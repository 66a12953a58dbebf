//! The tableau of a node at the start.
ghost use Rattle.std.specs.Prelude.{◌≡◌, ◌<◌, ◌+◌, ◌^◌, ◌≤◌, ℕ, length, IfOk, if◌then◌else◌, nat_lt, pos, neg_ℤ};
ghost use Rattle.ip_defs.specs.Program.{coefficient};
ghost use Rattle.ip_defs.specs.Limits.{AreOrdered, AreSmall, IsWithinLimits};
ghost use Rattle.tableau.specs.declared.positions.Rest.TheVariants.{Basic, Low};
ghost use Rattle.frac128.specs.Fractions.{whole as whole_of};
ghost use Rattle.tableau.specs.Tables.{at, line as line_of, IsTable};
ghost use Rattle.tableau.specs.Nodes.{variables_of, listed, start_entry, start_of, StandsFor, HasItsPoints};

use crate::lines::Line;
use crate::{Rest, Tableau, Variable};
use frac128::Frac;
use ip_defs::{Area, Memory, Parts};
use ip_model::IntModel;
use std::alloc::Global;

/// The variables of a node: its columns with the sides of the area, and then its slacks.
fn node_variables(
    alloc: Global,
    parts: &Parts,
    area: &[(i64, i64)],
) -> Result<Vec<Variable>, Memory>
    requires size { length area.now ≡ length parts.now.columns }
    ensures { IfOk result (λ v. v.items ≡ variables_of parts.now area.now) }
{
    let columns = parts.columns.as_slice();
    let mut variables = Vec::with_capacity(alloc, columns.len())?;
    for (j, column) in columns.iter().enumerate() {
        let (low, high) = area[j];
        variables.push(Variable {
            low: Some(low),
            high: Some(high),
            cost: column.cost,
        })?;
    }
    for row in parts.rows.as_slice() {
        variables.push(Variable {
            low: row.low,
            high: row.high,
            cost: 0,
        })?;
    }
    Ok(variables)
}

/// A line of zeros.
fn zero_line(alloc: Global, all: usize) -> Result<Line, Memory>
    ensures size { IfOk result (λ l. length l ≡ all) }
    ensures zeros { IfOk result (λ l. (v : ℕ) → v < all → at l v ≡ whole_of (pos 0)) }
{
    Ok(Line::new(vec![in alloc; Frac::from_whole(0); all]?))
}

/// Lines of zeros.
fn zero_lines(alloc: Global, count: usize, all: usize) -> Result<Vec<Line>, Memory>
    ensures count { IfOk result (λ ls. length ls.items ≡ count) }
    ensures size { IfOk result (λ ls. (i : ℕ) → i < count → length (line_of ls.items i) ≡ all) }
{
    let mut lines = Vec::with_capacity(alloc, count)?;
    for _ in 0..count {
        lines.push(zero_line(alloc, all)?)?;
    }
    Ok(lines)
}

/// Writes minus the coefficients of a row into a line of zeros.
fn put_coefs(line: &mut Line, coefs: &[(u32, i64)])
    requires ordered { AreOrdered (length line.old) coefs.now }
    requires small { AreSmall (2 ^ 40) coefs.now }
    requires zeros { (v : ℕ) → v < length line.old → at line.old v ≡ whole_of (pos 0) }
    ensures size { length line.new ≡ length line.old }
    ensures numbers { (v : ℕ) → v < length line.old → at line.new v ≡ whole_of (neg_ℤ (coefficient coefs.now v)) }
{
    for (column, coefficient) in coefs {
        line.set(*column as usize, Frac::from_whole(-*coefficient));
    }
}

/// A row at the start: its slack less its sum.
fn start_line(alloc: Global, parts: &Parts, k: usize) -> Result<Line, Memory>
    requires limits { IsWithinLimits parts.now }
    requires row { k < length parts.now.rows }
    ensures { IfOk result (λ l. l ≡ listed (length parts.now.columns + length parts.now.rows) (start_entry parts.now k)) }
{
    let columns = parts.columns.as_slice().len();
    let rows = parts.rows.as_slice();
    let mut line = zero_line(alloc, columns + rows.len())?;
    let row = &rows[k];
    put_coefs(&mut line, row.coefs.as_slice());
    line.set(columns + k, Frac::from_whole(1));
    Ok(line)
}

/// The rows at the start.
fn start_rows(alloc: Global, parts: &Parts) -> Result<Vec<Line>, Memory>
    requires limits { IsWithinLimits parts.now }
    ensures { IfOk result (λ ls. ls.items ≡ listed (length parts.now.rows) (λ k. listed (length parts.now.columns + length parts.now.rows)
        (start_entry parts.now k))) }
{
    let count = parts.rows.as_slice().len();
    let mut lines = Vec::with_capacity(alloc, count)?;
    for k in 0..count {
        lines.push(start_line(alloc, parts, k)?)?;
    }
    Ok(lines)
}

/// The basic variables at the start: the slacks.
fn start_basics(alloc: Global, columns: usize, rows: usize) -> Result<Vec<u32>, Memory>
    requires columns { columns ≤ 4096 }
    requires rows { rows ≤ 1024 }
    ensures { IfOk result (λ v. v.items ≡ listed rows (λ k. columns + k)) }
{
    let mut basics = Vec::with_capacity(alloc, rows)?;
    for k in 0..rows {
        basics.push((columns + k) as u32)?;
    }
    Ok(basics)
}

/// The position of a variable at the start: columns are nonbasic at their low sides, slacks are basic.
fn start_position(v: usize, columns: usize) -> Rest
    ensures { result ≡ (if nat_lt v columns then Low else Basic) }
{
    if v < columns { Rest::Low } else { Rest::Basic }
}

/// The positions of the variables at the start.
fn start_positions(alloc: Global, columns: usize, rows: usize) -> Result<Vec<Rest>, Memory>
    requires columns { columns ≤ 4096 }
    requires rows { rows ≤ 1024 }
    ensures { IfOk result (λ v. v.items ≡ listed (columns + rows) (λ v. if nat_lt v columns then Low else Basic)) }
{
    let mut positions = Vec::with_capacity(alloc, columns + rows)?;
    for v in 0..columns + rows {
        positions.push(start_position(v, columns))?;
    }
    Ok(positions)
}

/// The tableau of a node with all slacks basic and each column at its low side: row k says that its slack less its sum is 0.
fn start_at(alloc: Global, parts: &Parts, area: &[(i64, i64)]) -> Result<Tableau, Memory>
    requires limits { IsWithinLimits parts.now }
    requires size { length area.now ≡ length parts.now.columns }
    ensures { IfOk result (λ t. t ≡ start_of parts.now area.now) }
{
    let columns = parts.columns.as_slice().len();
    let count = parts.rows.as_slice().len();
    let rows = start_rows(alloc, parts)?;
    let spare = zero_lines(alloc, count, columns + count)?;
    let quotients = zero_line(alloc, columns + count)?;
    let basics = start_basics(alloc, columns, count)?;
    let positions = start_positions(alloc, columns, count)?;
    let variables = node_variables(alloc, parts, area)?;
    Ok(Tableau::new(rows, spare, quotients, basics, positions, variables))
}

/// The tableau of a node at the start: all slacks are basic, and each column is nonbasic at its low side. An area has one pair of sides
/// for each column of the model, and no column of it is empty. The tableau stands for the node, and only points that meet the node's
/// equations make its rows 0.
pub fn start(alloc: Global, model: &IntModel, area: &Area) -> Result<Tableau, Memory>
    requires { length area.now ≡ length model.now.columns }
    ensures start { IfOk result (λ t. t ≡ start_of model.now area.now) }
    ensures stands { IfOk result (λ t. StandsFor model.now area.now t) }
    ensures points { IfOk result (λ t. HasItsPoints model.now t) }
{
    start_at(alloc, model.parts(), area.as_slice())
}
