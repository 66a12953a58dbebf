//! The numbers of the variables, and the first one that is outside its sides.
ghost use Rattle.std.specs.Prelude.{◌≡◌, ◌<◌, ◌≤◌, ℕ, IfOk, OnErr, length, None, Ok, slice_index_or};
ghost use Rattle.tableau.specs.Tables.{IsTable};
ghost use Rattle.simplex_laws.specs.Steps.{infeasible as infeasible_at};
ghost use Rattle.simplex_laws.specs.Wides.{HasWideNumber};
ghost use Rattle.simplex_exact.specs.Internal.Numbers.{row_of, AreBasicRows, IsNumber, AreNumbersBelow};
ghost use Rattle.ip_defs.specs.Lists.{first};

use crate::sides::outside;
use tableau::{Frac, Tableau, Wide, present_side};

/// Forgets the rows of all variables.
fn clear(basic_rows: &mut [Option<u32>])
    ensures { (v : ℕ) → slice_index_or basic_rows.new v None ≡ None }
{
    for own_row in basic_rows.iter_mut() {
        *own_row = None;
    }
}

/// Writes the row of each basic variable, and none for each other one.
pub fn find_basic_rows(tableau: &Tableau, rows: u32, basic_rows: &mut [Option<u32>])
    requires table { IsTable tableau.now }
    requires rows { rows ≡ length tableau.now.rows }
    requires size { length basic_rows.old ≡ length tableau.now.variables }
    ensures { AreBasicRows tableau.now basic_rows.new }
{
    clear(basic_rows);
    for row in 0..rows {
        let basic = tableau.basic(row) as usize;
        if basic_rows[basic].is_none() {
            basic_rows[basic] = Some(row);
        }
    }
}

/// The number of a variable: the value of its row where it is basic, and else its nonbasic value.
fn number(tableau: &Tableau, own_row: Option<u32>, var: u32) -> Result<Frac, Wide>
    requires table { IsTable tableau.now }
    requires variable { var < length tableau.now.variables }
    requires own_row { own_row ≡ row_of tableau.now var }
    ensures number { IfOk result (IsNumber tableau.now var) }
    ensures wide { OnErr result (HasWideNumber tableau.now) }
{
    match own_row {
        Some(row) => tableau.value(row),
        None => {
            let nonbasic = tableau.variable(var).nonbasic_value(tableau.rest(var));
            Ok(Frac::from_whole(present_side(nonbasic)))
        }
    }
}

/// The row of a variable that is outside its sides, and whether it has to rise.
fn infeasible(
    tableau: &Tableau,
    own_row: Option<u32>,
    number: Frac,
    var: u32,
) -> Option<(u32, bool)>
    requires variable { var < length tableau.now.variables }
    requires own_row { own_row ≡ row_of tableau.now var }
    requires number { IsNumber tableau.now var number }
    ensures { result ≡ infeasible_at tableau.now var }
{
    let row = match own_row {
        Some(row) => row,
        None => return None,
    };
    let variable = tableau.variable(var);
    match outside(number, variable.low, variable.high) {
        Some(up) => Some((row, up)),
        None => None,
    }
}

/// The first basic variable that is outside its sides, by number: its row, and whether it has to rise. Where there is none, the
/// numbers of all variables are written.
pub fn first_infeasible(
    tableau: &Tableau,
    basic_rows: &[Option<u32>],
    values: &mut [Frac],
) -> Result<Option<(u32, bool)>, Wide>
    requires table { IsTable tableau.now }
    requires count { length basic_rows.now ≡ length tableau.now.variables }
    requires small { length basic_rows.now < 8192 }
    requires basic_rows { AreBasicRows tableau.now basic_rows.now }
    requires size { length values.old ≡ length tableau.now.variables }
    ensures infeasible { IfOk result (λ b. b ≡ first (infeasible_at tableau.now) (length tableau.now.variables)) }
    ensures numbers { result ≡ Ok None → AreNumbersBelow tableau.now values.new (length tableau.now.variables) }
    ensures wide { OnErr result (HasWideNumber tableau.now) }
{
    for v in 0..basic_rows.len() {
        let var = v as u32;
        let number = match number(tableau, basic_rows[v], var) {
            Ok(number) => number,
            Err(Wide) => return Err(Wide),
        };
        values[v] = number;
        match infeasible(tableau, basic_rows[v], number, var) {
            Some(found) => return Ok(Some(found)),
            None => {}
        }
    }
    Ok(None)
}
