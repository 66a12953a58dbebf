//! The choice of the next step.
ghost use Rattle.std.specs.Prelude.{◌≡◌, ◌≢◌, ◌<◌, IfOk, OnErr, length, Ok};
ghost use Rattle.tableau.specs.declared.positions.Rest.TheVariants.{Basic};
ghost use Rattle.tableau.specs.Tables.{IsTable, position_at};
ghost use Rattle.simplex_laws.specs.declared.next.Next.TheVariants.{FinalPoint};
ghost use Rattle.simplex_laws.specs.Steps.{entering as entering_at, improve as improve_by, restore as restore_by};
ghost use Rattle.simplex_laws.specs.Steps.{row_entering as row_entering_at, move as move_of, next as next_of};
ghost use Rattle.simplex_laws.specs.Wides.{HasWideNumber};
ghost use Rattle.simplex_exact.specs.Internal.Numbers.{AreFound, AreNumbersBelow};

use crate::blocking::nearest;
use crate::directions::{entering, row_entering};
use crate::numbers::{find_basic_rows, first_infeasible};
use crate::sides::side_towards;
use simplex_laws::Next;
use tableau::{Frac, Tableau, Wide};

/// What is next where a row's basic variable has to rise, or fall.
fn restore(tableau: &Tableau, row: u32, up: bool, count: u32) -> Next
    requires row { row < length tableau.now.rows }
    requires count { count ≡ length tableau.now.variables }
    ensures next { result ≡ restore_by row up (row_entering_at tableau.now row up) }
    ensures other { result ≢ FinalPoint }
{
    match row_entering(tableau, row, up, count) {
        Some(var) => Next::Pivot {
            row,
            var,
            leaving: side_towards(!up),
        },
        None => Next::FinalRow { row, up },
    }
}

/// What is next where the entering variable moves up or down.
fn advance(
    tableau: &Tableau,
    basic_rows: &[Option<u32>],
    values: &[Frac],
    var: u32,
    up: bool,
) -> Result<Next, Wide>
    requires table { IsTable tableau.now }
    requires variable { var < length tableau.now.variables }
    requires free { position_at tableau.now.positions var ≢ Basic }
    requires found { AreFound tableau.now basic_rows.now values.now }
    ensures next { IfOk result (λ n. n ≡ move_of tableau.now (var, up)) }
    ensures wide { OnErr result (HasWideNumber tableau.now) }
{
    match nearest(tableau, basic_rows, values, var, up) {
        Ok(Some(block)) => Ok(block.1),
        Ok(None) => Ok(Next::FinalPoint),
        Err(Wide) => Err(Wide),
    }
}

/// What is next where each basic variable is within its sides.
fn improve(tableau: &Tableau, basic_rows: &[Option<u32>], values: &[Frac]) -> Result<Next, Wide>
    requires table { IsTable tableau.now }
    requires found { AreFound tableau.now basic_rows.now values.now }
    ensures next { IfOk result (λ n. n ≡ improve_by tableau.now (entering_at tableau.now)) }
    ensures wide { OnErr result (HasWideNumber tableau.now) }
{
    match entering(tableau, basic_rows.len() as u32) {
        Ok(Some((var, up))) => advance(tableau, basic_rows, values, var, up),
        Ok(None) => Ok(Next::FinalPoint),
        Err(Wide) => Err(Wide),
    }
}

/// The next step of a tableau. Where it is final with a point, the numbers of its variables are written.
pub fn choose(
    tableau: &Tableau,
    rows: u32,
    basic_rows: &mut [Option<u32>],
    values: &mut [Frac],
) -> Result<Next, Wide>
    requires table { IsTable tableau.now }
    requires rows { rows ≡ length tableau.now.rows }
    requires small { length basic_rows.old < 8192 }
    requires count { length basic_rows.old ≡ length tableau.now.variables }
    requires size { length values.old ≡ length tableau.now.variables }
    ensures next { IfOk result (λ n. n ≡ next_of tableau.now) }
    ensures wide { OnErr result (HasWideNumber tableau.now) }
    ensures numbers { result ≡ Ok FinalPoint → AreNumbersBelow tableau.now values.new (length tableau.now.variables) }
{
    find_basic_rows(tableau, rows, basic_rows);
    match first_infeasible(tableau, basic_rows, values) {
        Ok(Some((row, up))) => Ok(restore(tableau, row, up, basic_rows.len() as u32)),
        Ok(None) => improve(tableau, basic_rows, values),
        Err(Wide) => Err(Wide),
    }
}
