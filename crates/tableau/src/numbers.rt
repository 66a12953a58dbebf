//! The numbers of a tableau: the value of a row's basic variable, and the reduced cost of a variable.
ghost use Rattle.std.specs.Prelude.{◌≡◌, ◌<◌, ℕ, IfOk, length, pos};
ghost use Rattle.frac128.specs.Rationals.{of, sub as less, mul as times, neg, sum};
ghost use Rattle.frac128.specs.Values.{value_of};
ghost use Rattle.frac128.specs.Fractions.{whole as whole_of};
ghost use Rattle.tableau.specs.Tables.{at, line, entry, basic_at, position_at, variable_at};
ghost use Rattle.tableau.specs.Numbers.{after_steps, less_product, less_nonbasic_value, nonbasic_value, side_or_zero};

use crate::fractions::lessened;
use crate::lines::Line;
use crate::{Rest, Variable};
use frac128::{Frac, Wide};

/// A number less an entry times the value of its variable, where that is nonbasic.
#[inline]
fn less_nonbasic(x: Frac, entry: Frac, nonbasic_value: Option<i64>) -> Result<Frac, Wide>
    ensures exact { result ≡ less_nonbasic_value x entry nonbasic_value }
    ensures value { IfOk result (λ r. value_of r ≡ less (value_of x) (times (value_of entry) (of (side_or_zero nonbasic_value)))) }
{
    match nonbasic_value {
        Some(value) => lessened(x, entry, Frac::from_whole(value)),
        None => Ok(x),
    }
}

/// The value of a row's basic variable: 0 less each entry times the value of its nonbasic variable.
pub fn row_value(line: &[Frac], positions: &[Rest], variables: &[Variable]) -> Result<Frac, Wide>
    requires positions { length positions.now ≡ length line.now }
    requires variables { length variables.now ≡ length line.now }
    ensures exact { result ≡ after_steps (λ v x. less_nonbasic_value x (at line.now v) (nonbasic_value (variable_at variables.now v)
        (position_at positions.now v))) (whole_of (pos 0)) (length line.now) }
    ensures number { IfOk result (λ x. value_of x
        ≡ neg (sum (λ v. times (value_of (at line.now v))
        (of (side_or_zero (nonbasic_value (variable_at variables.now v) (position_at positions.now v))))) (length line.now))) }
{
    let mut value = Frac::from_whole(0);
    for v in 0..line.len() {
        match less_nonbasic(value, line[v], variables[v].nonbasic_value(positions[v])) {
            Ok(less) => value = less,
            Err(Wide) => return Err(Wide),
        }
    }
    Ok(value)
}

/// The reduced cost of a variable: its cost less each entry times the cost of the row's basic variable.
pub fn column_price(
    rows: &[Line],
    basics: &[u32],
    variables: &[Variable],
    var: usize,
) -> Result<Frac, Wide>
    requires basics { length basics.now ≡ length rows.now }
    requires within { (i : ℕ) → i < length rows.now → basic_at basics.now i < length variables.now }
    requires sizes { (i : ℕ) → i < length rows.now → var < length (line rows.now i) }
    requires variable { var < length variables.now }
    ensures exact { result ≡ after_steps (λ i x. less_product x (entry rows.now i var)
        (whole_of (variable_at variables.now (basic_at basics.now i)).cost)) (whole_of (variable_at variables.now var).cost)
        (length rows.now) }
    ensures number { IfOk result (λ x. value_of x ≡ less (of (variable_at variables.now var).cost)
        (sum (λ i. times (value_of (entry rows.now i var)) (of (variable_at variables.now (basic_at basics.now i)).cost))
        (length rows.now))) }
{
    let mut price = Frac::from_whole(variables[var].cost);
    for i in 0..rows.len() {
        let basic = basics[i] as usize;
        let line = &rows[i];
        match lessened(price, line.at(var), Frac::from_whole(variables[basic].cost)) {
            Ok(less) => price = less,
            Err(Wide) => return Err(Wide),
        }
    }
    Ok(price)
}
