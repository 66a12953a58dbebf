//! How far the entering variable can move, and the variable that blocks it first.
ghost use Rattle.std.specs.Prelude.{◌≡◌, ◌≢◌, ◌<◌, ◌≤◌, IfOk, OnErr, length, Ok, option_and_then, option_map, Some, pos};
ghost use Rattle.frac128.specs.Fractions.{difference_of, quotient_of, whole as whole_of};
ghost use Rattle.frac128.specs.Rationals.{Rational, of, sub as less, quotient, absolute as absolute_number};
ghost use Rattle.frac128.specs.Values.{value_of};
ghost use Rattle.tableau.specs.declared.positions.Rest.TheVariants.{Basic};
ghost use Rattle.tableau.specs.Tables.{IsTable, entry as entry_at, basic_at, position_at, variable_at};
ghost use Rattle.tableau.specs.Numbers.{and_then, range as range_of, side_at, value as value_in};
ghost use Rattle.tableau.specs.Nodes.{number};
ghost use Rattle.tableau.specs.Meanings.{ratio_number, value_number};
ghost use Rattle.simplex_laws.specs.declared.next.Next.TheVariants.{Flip};
ghost use Rattle.simplex_laws.specs.Steps.{side_met as side_met_by, block_at as block_in, block as block_by, nearer as nearer_of};
ghost use Rattle.simplex_laws.specs.Steps.{nearest as nearest_of};
ghost use Rattle.simplex_laws.specs.Wides.{HasWideNumber};
ghost use Rattle.simplex_exact.specs.Internal.Numbers.{row_of, AreFound, IsNumber, MayBlock, block_value};

use crate::sides::side_towards;
use crate::signs::is_below;
use frac128::{div, sub};
use simplex_laws::Next;
use tableau::{Frac, Rest, Tableau, Variable, Wide};

/// The side towards which a basic variable moves, by its entry's sign, where the entering variable moves up or down.
fn side_met(up: bool, sign: i128) -> Option<Rest>
    ensures { (p : Rational) → p.numerator ≡ sign → result ≡ side_met_by up p }
{
    if sign < 0 {
        Some(side_towards(up))
    } else if 0 < sign {
        Some(side_towards(!up))
    } else {
        None
    }
}

/// How far the entering variable can move until a basic variable with a value meets a side.
fn ratio(value: Frac, side: i64, entry: Frac) -> Result<Frac, Wide>
    requires { entry.num ≢ pos 0 }
    ensures exact { result ≡ and_then (difference_of value (whole_of side)) (λ gap. quotient_of gap entry) }
    ensures number { IfOk result (λ x. value_of x ≡ quotient (less (value_of value) (of side)) (value_of entry)) }
{
    match sub(value, Frac::from_whole(side)) {
        Ok(gap) => div(gap, entry),
        Err(Wide) => Err(Wide),
    }
}

/// How far the entering variable can move until a row's basic variable meets a side that it has.
fn distance(
    tableau: &Tableau,
    value: Frac,
    row: u32,
    var: u32,
    side: Rest,
    there: i64,
) -> Result<Frac, Wide>
    requires row { MayBlock tableau.now row var value }
    requires pivot { (entry_at tableau.now.rows row var).num ≢ pos 0 }
    requires side { side_at (variable_at tableau.now.variables (basic_at tableau.now.basics row)) side ≡ Some there }
    ensures distance { IfOk result (λ x. value_of x ≡ absolute_number (ratio_number tableau.now row var side)) }
    ensures wide { OnErr result (HasWideNumber tableau.now) }
{
    match ratio(value, there, tableau.entry(row, var)) {
        Ok(far) => Ok(far.absolute()),
        Err(Wide) => Err(Wide),
    }
}

/// How a row's basic variable blocks the entering variable at a side, where it has that side.
fn block_at(
    tableau: &Tableau,
    value: Frac,
    row: u32,
    var: u32,
    side: Rest,
) -> Result<Option<(Frac, Next)>, Wide>
    requires row { MayBlock tableau.now row var value }
    requires pivot { (entry_at tableau.now.rows row var).num ≢ pos 0 }
    ensures block { IfOk result (λ s. block_value s ≡ block_in tableau.now var row side) }
    ensures wide { OnErr result (HasWideNumber tableau.now) }
{
    let there = match tableau.variable(tableau.basic(row)).side(side) {
        Some(there) => there,
        None => return Ok(None),
    };
    match distance(tableau, value, row, var, side, there) {
        Ok(far) => {
            let next = Next::Pivot {
                row,
                var,
                leaving: side,
            };
            Ok(Some((far, next)))
        }
        Err(Wide) => Err(Wide),
    }
}

/// How the entering variable is blocked by its own other side.
fn own_block(variable: Variable, var: u32) -> Option<(Frac, Next)>
    ensures { block_value result ≡ option_map (λ far. (far, Flip var)) (range_of variable) }
{
    match variable.range() {
        Some(far) => Some((far, Next::Flip { var })),
        None => None,
    }
}

/// How a variable blocks the entering variable, which moves up or down.
fn block(
    tableau: &Tableau,
    var: u32,
    up: bool,
    other: u32,
    own_row: Option<u32>,
    value: Frac,
) -> Result<Option<(Frac, Next)>, Wide>
    requires table { IsTable tableau.now }
    requires variable { var < length tableau.now.variables }
    requires free { position_at tableau.now.positions var ≢ Basic }
    requires own_row { own_row ≡ row_of tableau.now other }
    requires value { IsNumber tableau.now other value }
    ensures block { IfOk result (λ s. block_value s ≡ block_by tableau.now var up other) }
    ensures wide { OnErr result (HasWideNumber tableau.now) }
{
    if other == var {
        return Ok(own_block(tableau.variable(var), var));
    }
    let Some(row) = own_row else {
        return Ok(None);
    };
    match side_met(up, tableau.entry(row, var).num()) {
        Some(side) => block_at(tableau, value, row, var, side),
        None => Ok(None),
    }
}

/// The nearer of two blocks, the first among equals.
fn nearer(first: Option<(Frac, Next)>, second: Option<(Frac, Next)>) -> Option<(Frac, Next)>
    ensures { block_value result ≡ nearer_of (block_value first) (block_value second) }
{
    match (first, second) {
        (Some(x), Some(y)) => { if is_below(y.0, x.0) { Some(y) } else { Some(x) } }
        (Some(x), None) => Some(x),
        (None, other) => other,
    }
}

/// What blocks the entering variable first.
pub fn nearest(
    tableau: &Tableau,
    basic_rows: &[Option<u32>],
    values: &[Frac],
    var: u32,
    up: bool,
) -> Result<Option<(Frac, Next)>, Wide>
    requires table { IsTable tableau.now }
    requires variable { var < length tableau.now.variables }
    requires free { position_at tableau.now.positions var ≢ Basic }
    requires found { AreFound tableau.now basic_rows.now values.now }
    ensures block { IfOk result (λ s. block_value s ≡ nearest_of (block_by tableau.now var up) (length tableau.now.variables)) }
    ensures wide { OnErr result (HasWideNumber tableau.now) }
{
    let mut best = None;
    for w in 0..basic_rows.len() {
        match block(tableau, var, up, w as u32, basic_rows[w], values[w]) {
            Ok(found) => best = nearer(best, found),
            Err(Wide) => return Err(Wide),
        }
    }
    Ok(best)
}
