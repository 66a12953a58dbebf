//! The direction in which a variable can move, and the first variable that can enter.
ghost use Rattle.std.specs.Prelude.{◌≡◌, ◌<◌, ◌≤◌, ◌^◌, length, IfOk, OnOk, OnErr, option_map};
ghost use Rattle.frac128.specs.Rationals.{Rational};
ghost use Rattle.frac128.specs.Values.{value_of};
ghost use Rattle.tableau.specs.Nodes.{number};
ghost use Rattle.tableau.specs.Meanings.{price_number};
ghost use Rattle.simplex_laws.specs.Steps.{can_move as can_move_at, direction as direction_at, row_entering as row_entering_at};
ghost use Rattle.simplex_laws.specs.Steps.{entering as entering_at};
ghost use Rattle.simplex_laws.specs.Wides.{HasWideNumber};
ghost use Rattle.simplex_exact.specs.Internal.Numbers.{turned as turned_number};

use crate::sides::allows;
use crate::signs::turned;
use tableau::{Tableau, Wide};

/// Whether a variable that is not basic can rise, or fall.
fn can_move(tableau: &Tableau, up: bool, var: u32) -> bool
    requires { var < length tableau.now.variables }
    ensures { result ≡ can_move_at tableau.now up var }
{
    allows(up, tableau.rest(var)) && !tableau.variable(var).is_fixed()
}

/// The direction of a variable by the sign of a number: up below 0, down above 0.
fn direction(tableau: &Tableau, sign: i128, var: u32) -> Option<bool>
    requires { var < length tableau.now.variables }
    ensures { (p : Rational) → p.numerator ≡ sign → result ≡ direction_at tableau.now p var }
{
    if sign < 0 && can_move(tableau, true, var) {
        Some(true)
    } else if 0 < sign && can_move(tableau, false, var) {
        Some(false)
    } else {
        None
    }
}

/// The direction in which a variable moves to let the basic variable of a row rise, or fall.
fn row_direction(tableau: &Tableau, row: u32, up: bool, var: u32) -> Option<bool>
    requires row { row < length tableau.now.rows }
    requires variable { var < length tableau.now.variables }
    ensures { result ≡ direction_at tableau.now (turned_number up (number tableau.now row var)) var }
{
    direction(tableau, turned(tableau.entry(row, var), up).num(), var)
}

/// The first variable that can enter to let the basic variable of a row rise, or fall.
pub fn row_entering(tableau: &Tableau, row: u32, up: bool, count: u32) -> Option<u32>
    requires row { row < length tableau.now.rows }
    requires count { count ≡ length tableau.now.variables }
    ensures { result ≡ row_entering_at tableau.now row up }
{
    for var in 0..count {
        match row_direction(tableau, row, up, var) {
            Some(_) => return Some(var),
            None => {}
        }
    }
    None
}

/// The direction in which a variable lowers the cost, by its reduced cost. That of a variable that cannot move is not computed.
fn cost_direction(tableau: &Tableau, var: u32) -> Result<Option<bool>, Wide>
    requires { var < length tableau.now.variables }
    ensures direction { IfOk result (λ w. w ≡ direction_at tableau.now (price_number tableau.now var) var) }
    ensures wide { OnErr result (HasWideNumber tableau.now) }
{
    if !can_move(tableau, true, var) && !can_move(tableau, false, var) {
        return Ok(None);
    }
    match tableau.price(var) {
        Ok(price) => Ok(direction(tableau, price.num(), var)),
        Err(Wide) => Err(Wide),
    }
}

/// The first variable whose reduced cost lets it lower the cost, and its direction.
pub fn entering(tableau: &Tableau, count: u32) -> Result<Option<(u32, bool)>, Wide>
    requires { count ≡ length tableau.now.variables }
    ensures first { IfOk result (λ w. w ≡ entering_at tableau.now) }
    ensures wide { OnErr result (HasWideNumber tableau.now) }
{
    for var in 0..count {
        match cost_direction(tableau, var) {
            Ok(Some(up)) => return Ok(Some((var, up))),
            Ok(None) => {}
            Err(Wide) => return Err(Wide),
        }
    }
    Ok(None)
}
