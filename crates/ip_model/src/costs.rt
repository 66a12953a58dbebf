//! The cost of a point.
ghost use Rattle.std.specs.Prelude.{◌≡◌, length};
ghost use Rattle.ip_defs.specs.Limits.{IsWithinLimits};
ghost use Rattle.ip_defs.specs.Program.{cost as cost_of};

use crate::models::IntModel;
use crate::terms::{term, total_of};
use ip_defs::{Parts, Point};

/// The constant and the sum of cost times coordinate. With at most 4,096 columns its absolute value stays below 2^116.
fn cost_at(parts: &Parts, point: &[i64]) -> i128
    requires limits { IsWithinLimits parts.now }
    requires size { length point.now ≡ length parts.now.columns }
    ensures { result ≡ cost_of parts.now point.now }
{
    let mut total = i128::from(parts.constant);
    for (j, column) in parts.columns.as_slice().iter().enumerate() {
        total = total_of(total, term(column.cost, point[j]));
    }
    total
}

/// The cost of a point with one coordinate for each column, in units of 10^-cost_decimals: the constant, and the sum over the columns
/// of cost times coordinate. The point need not be feasible.
pub fn cost(model: &IntModel, point: &Point) -> i128
    requires { length point.now ≡ length model.now.columns }
    ensures { result ≡ cost_of model.now point.now }
{
    cost_at(model.parts(), point.as_slice())
}
