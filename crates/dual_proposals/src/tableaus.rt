//! The living tableau: its memory, and how it begins anew.
use crate::ranges::Range;
use crate::tableau_rows::{NO_ELIMINATION, TableauRow};
use crate::ties::TieRow;
use ip_defs::{Area, Memory, Parts};
use ip_model::IntModel;
use std::alloc::Global;

/// A nonbasic variable, and the side at which it is.
#[derive(Clone, Copy)]
pub struct Nonbasic {
    pub variable: usize,
    pub at_high: bool,
}

/// A basic variable with its row.
#[derive(Drop)]
pub struct BasicRow {
    pub variable: usize,
    pub row: TableauRow,
}

/// A living dual tableau of a model. The variables are its columns by number, and behind them the slacks of its rows, each of which is the
/// value of its row.
#[derive(Drop)]
pub struct DualTableau {
    /// The number of columns.
    pub(crate) columns: usize,
    pub(crate) constant: i128,
    /// The sides of each variable.
    pub(crate) ranges: Vec<Range>,
    pub(crate) nonbasic: Vec<Nonbasic>,
    pub(crate) basic: Vec<BasicRow>,
    /// The costs without the constant, whose numbers are the reduced costs.
    pub(crate) costs: TableauRow,
    pub(crate) ties: TieRow,
    /// The pivot row of the step under way.
    pub(crate) pivot_row: TableauRow,
    /// Whether a number did not fit, so that the next move begins anew.
    pub(crate) is_spent: bool,
}

/// A row of zeros.
fn zero_row(alloc: Global, places: usize) -> Result<TableauRow, Memory> {
    Ok(TableauRow {
        numbers: vec![in alloc; 0; places]?,
        value: 0,
        denominator: 1,
        absolute_sum: 0,
        elimination: NO_ELIMINATION,
    })
}

/// Writes coefficients into a row of zeros, and its value with each column at its side.
fn fill(row: &mut TableauRow, coefs: &[(u32, i64)], ranges: &[Range], nonbasic: &[Nonbasic]) {
    for (column, coefficient) in coefs {
        let place = *column as usize;
        let number = i128::from(*coefficient);
        row.put(place, number);
        row.value = row.value.wrapping_add(number.wrapping_mul(nonbasic_value(
            ranges, nonbasic, place,
        )));
    }
    row.count();
}

/// The value of the variable of a nonbasic place: the side at which it is.
#[inline]
pub fn nonbasic_value(ranges: &[Range], nonbasic: &[Nonbasic], place: usize) -> i128 {
    match nonbasic.get(place) {
        Some(variable) => match ranges.get(variable.variable) {
            Some(range) => range.side(variable.at_high),
            None => 0,
        },
        None => 0,
    }
}

/// A living tableau of a model, at the model's own box. It takes (rows + 3) times columns times 16 bytes.
pub fn start(alloc: Global, model: &IntModel) -> Result<DualTableau, Memory> {
    let parts = model.parts();
    let columns = parts.columns.as_slice();
    let rows = parts.rows.as_slice();
    let places = columns.len();
    let mut ranges = Vec::with_capacity(alloc, places.wrapping_add(rows.len()))?;
    let mut nonbasic = Vec::with_capacity(alloc, places)?;
    let mut basic = Vec::with_capacity(alloc, rows.len())?;
    for (j, column) in columns.iter().enumerate() {
        ranges.push(Range::between(column.lo, column.hi))?;
        nonbasic.push(Nonbasic {
            variable: j,
            at_high: column.cost < 0,
        })?;
    }
    for (k, row) in rows.iter().enumerate() {
        ranges.push(Range {
            low: row.low,
            high: row.high,
        })?;
        basic.push(BasicRow {
            variable: places.wrapping_add(k),
            row: zero_row(alloc, places)?,
        })?;
    }
    let mut tableau = DualTableau {
        columns: places,
        constant: i128::from(parts.constant),
        ranges,
        nonbasic,
        basic,
        costs: zero_row(alloc, places)?,
        ties: TieRow::new(alloc, places)?,
        pivot_row: zero_row(alloc, places)?,
        is_spent: false,
    };
    tableau.begin(parts);
    Ok(tableau)
}

impl DualTableau {
    /// Makes each slack basic, with each column at the side that its cost favours.
    fn begin(&mut self, parts: &Parts) {
        let columns = parts.columns.as_slice();
        for ((j, nonbasic), column) in self.nonbasic.iter_mut().enumerate().zip(columns) {
            *nonbasic = Nonbasic {
                variable: j,
                at_high: column.cost < 0,
            };
        }
        self.begin_costs(parts);
        self.begin_rows(parts);
        self.is_spent = false;
    }

    /// Writes the row of the costs.
    fn begin_costs(&mut self, parts: &Parts) {
        self.costs.clear();
        for (j, column) in parts.columns.as_slice().iter().enumerate() {
            let cost = i128::from(column.cost);
            let value = nonbasic_value(self.ranges.as_slice(), self.nonbasic.as_slice(), j);
            self.costs.put(j, cost);
            self.costs.value = self.costs.value.wrapping_add(cost.wrapping_mul(value));
        }
        self.costs.count();
    }

    /// Writes the rows of the slacks.
    fn begin_rows(&mut self, parts: &Parts) {
        let columns = self.columns;
        for ((k, basic), row) in self.basic.iter_mut().enumerate().zip(parts.rows.as_slice()) {
            basic.variable = columns.wrapping_add(k);
            basic.row.clear();
            fill(
                &mut basic.row,
                row.coefs.as_slice(),
                self.ranges.as_slice(),
                self.nonbasic.as_slice(),
            );
        }
    }

    /// Takes the sides of a box for those of the columns.
    pub(crate) fn set_ranges(&mut self, area: &[(i64, i64)]) {
        for (range, side) in self.ranges.as_mut_slice().iter_mut().zip(area) {
            *range = Range::between(side.0, side.1);
        }
    }

    /// Begins anew at a box.
    pub(crate) fn begin_at(&mut self, parts: &Parts, area: &Area) {
        self.set_ranges(area.as_slice());
        self.begin(parts);
    }
}
