//! Integer programs: columns, rows, objective, and what a point can violate.

ghost use Rattle.ip_defs.specs.Breaches.{BreachesAreExact};

use crate::{Coefs, ColumnList, Name, RowList};

/// A column: an integer variable with its cost, in units of the costs, and its lower and upper bound. With `lo > hi` the program
/// has no feasible point.
#[derive(Debug, Drop)]
pub struct Column {
    pub name: Name,
    pub cost: i64,
    pub lo: i64,
    pub hi: i64,
}

/// A row: `low <= coefficients * point <= high`, where a side that is None does not bind. Coefficients and sides are whole numbers
/// in units of 10^-decimals.
#[derive(Debug, Drop)]
pub struct Row {
    pub name: Name,
    pub decimals: u8,
    pub coefs: Coefs,
    pub low: Option<i64>,
    pub high: Option<i64>,
}

/// An integer program: minimize constant plus costs over the points of the box that satisfy every row. Costs and constant are whole
/// numbers in units of 10^-cost_decimals.
#[derive(Debug, Drop)]
pub struct Parts {
    pub objective: Name,
    pub cost_decimals: u8,
    pub constant: i64,
    pub columns: ColumnList,
    pub rows: RowList,
}

/// The column whose bounds a point violates, or the row whose sides it violates, by number.
#[derive(Clone, Copy, Debug, PartialEq, Eq)]
pub enum Breach {
    Column(u32),
    Row(u32),
}

/// Law: a point with one coordinate for each column has no breach exactly where it is feasible.
pub fn breaches_are_exact()
    ensures { BreachesAreExact }
{}
