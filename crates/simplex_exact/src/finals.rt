//! The answer that a final tableau holds.
ghost use Rattle.std.specs.Prelude.{◌≡◌, ◌<◌, ◌≤◌, ◌+◌, IfOk, MatchOption, length, true};
ghost use Rattle.tableau.specs.Tables.{Table, IsTable};
ghost use Rattle.tableau.specs.Nodes.{number};
ghost use Rattle.tableau.specs.Meanings.{price_number};
ghost use Rattle.simplex_laws.specs.declared.next.Next.TheVariants.{FinalPoint};
ghost use Rattle.simplex_laws.specs.Laws.{CanStep};
ghost use Rattle.simplex_laws.specs.Steps.{is_final};
ghost use Rattle.simplex_laws.specs.Wides.{HasWideNumber};
ghost use Rattle.simplex_laws.specs.Finals.{point_of};
ghost use Rattle.simplex_exact.specs.Answers.{AreNumbers};
ghost use Rattle.simplex_exact.specs.Internal.Numbers.{AreNumbersBelow, turned as turned_number};
ghost use Rattle.simplex_exact.specs.Internal.Reads.{HasColumnsAndRows, IsPointRead, IsRead};

use crate::LpAnswer;
use crate::signs::turned;
use ip_defs::Memory;
use lp_duality::Fracs;
use simplex_laws::Next;
use std::alloc::Global;
use tableau::{Frac, Tableau, Wide};

/// The numbers of the columns.
fn point(alloc: Global, values: &[Frac], columns: u32) -> Result<Fracs, Memory>
    requires { columns ≤ length values.now }
    ensures { (T : Table) → AreNumbersBelow T values.now columns → IfOk result (AreNumbers columns (point_of T)) }
{
    let mut point = Vec::with_capacity(alloc, columns as usize)?;
    for j in 0..columns {
        point.push(values[j as usize])?;
    }
    Ok(Fracs::from_vec(point))
}

/// The dual prices of the rows, which are the reduced costs of their slacks; none where one of them is wide.
fn prices(
    alloc: Global,
    tableau: &Tableau,
    columns: u32,
    rows: u32,
) -> Result<Option<Fracs>, Memory>
    requires sizes { HasColumnsAndRows tableau.now columns rows }
    ensures { IfOk result (λ o. MatchOption o (HasWideNumber tableau.now)
        (AreNumbers rows (λ k. price_number tableau.now (columns + k)))) }
{
    let mut prices = Vec::with_capacity(alloc, rows as usize)?;
    for k in 0..rows {
        match tableau.price(columns + k) {
            Ok(price) => prices.push(price)?,
            Err(Wide) => return Ok(None),
        }
    }
    Ok(Some(Fracs::from_vec(prices)))
}

/// The slack entries of a row, as they are or negated.
fn ray(
    alloc: Global,
    tableau: &Tableau,
    row: u32,
    up: bool,
    columns: u32,
    rows: u32,
) -> Result<Fracs, Memory>
    requires sizes { HasColumnsAndRows tableau.now columns rows }
    requires row { row < length tableau.now.rows }
    ensures { IfOk result (AreNumbers rows (λ k. turned_number up (number tableau.now row (columns + k)))) }
{
    let mut ray = Vec::with_capacity(alloc, rows as usize)?;
    for k in 0..rows {
        ray.push(turned(tableau.entry(row, columns + k), up))?;
    }
    Ok(Fracs::from_vec(ray))
}

/// The answer of a tableau that is final with a point.
fn best(
    alloc: Global,
    tableau: &Tableau,
    values: &[Frac],
    columns: u32,
    rows: u32,
) -> Result<LpAnswer, Memory>
    requires sizes { HasColumnsAndRows tableau.now columns rows }
    requires size { length values.now ≡ length tableau.now.variables }
    requires values { AreNumbersBelow tableau.now values.now (length tableau.now.variables) }
    ensures { IfOk result (IsPointRead tableau.now columns rows) }
{
    let point = point(alloc, values, columns)?;
    match prices(alloc, tableau, columns, rows)? {
        Some(prices) => Ok(LpAnswer::Best { point, prices }),
        None => Ok(LpAnswer::Wide),
    }
}

/// The answer of a final tableau.
pub fn read(
    alloc: Global,
    tableau: &Tableau,
    values: &[Frac],
    next: Next,
    columns: u32,
    rows: u32,
) -> Result<LpAnswer, Memory>
    requires sizes { HasColumnsAndRows tableau.now columns rows }
    requires size { length values.now ≡ length tableau.now.variables }
    requires ended { is_final next ≡ true }
    requires step { CanStep tableau.now next }
    requires values { next ≡ FinalPoint → AreNumbersBelow tableau.now values.now (length tableau.now.variables) }
    ensures { IfOk result (IsRead tableau.now columns rows next) }
{
    match next {
        Next::FinalPoint => best(alloc, tableau, values, columns, rows),
        Next::FinalRow { row, up } => {
            let ray = ray(alloc, tableau, row, up, columns, rows)?;
            Ok(LpAnswer::Empty { ray })
        }
        Next::Pivot {
            row: _,
            var: _,
            leaving: _,
        }
        | Next::Flip { var: _ } => unreachable!(),
    }
}
