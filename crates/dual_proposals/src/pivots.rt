//! The exchange of a basic and a nonbasic variable. Either every row changes, or none does.
use crate::entering::Candidate;
use crate::leaving::Leaving;
use crate::tableaus::{DualTableau, Nonbasic, nonbasic_value};

impl DualTableau {
    /// Exchanges a basic variable, which leaves to the side that it is outside of, for a nonbasic one. Returns false where a number does
    /// not fit; the tableau has the same basis then.
    pub(crate) fn exchange(&mut self, leaving: &Leaving, entering: &Candidate) -> bool {
        let place = entering.place;
        let at_high = !leaving.rises;
        if !self.copy_pivot_row(leaving, at_high) {
            return false;
        }
        let pivot = self.pivot_row.number(place);
        if pivot == 0 || !self.prepare_rows(leaving.index, pivot, place) {
            return false;
        }
        self.eliminate_rows(leaving.index, pivot, place);
        let value = nonbasic_value(self.ranges.as_slice(), self.nonbasic.as_slice(), place);
        self.return_pivot_row(leaving.index, pivot, value);
        self.exchange_variables(leaving, entering, at_high);
        true
    }

    /// Divides the row of a leaving variable by its common divisor, and copies it, with its value counted from the side to which it leaves.
    fn copy_pivot_row(&mut self, leaving: &Leaving, at_high: bool) -> bool {
        let side = match self.ranges.as_slice().get(leaving.variable) {
            Some(range) => range.side(at_high),
            None => return false,
        };
        let Some(basic) = self.basic.as_mut_slice().get_mut(leaving.index) else {
            return false;
        };
        basic.row.divide();
        self.pivot_row.copy_from(&basic.row);
        let Some(product) = side.checked_mul(self.pivot_row.denominator) else {
            return false;
        };
        match self.pivot_row.value.checked_sub(product) {
            Some(distance) => {
                self.pivot_row.value = distance;
                true
            }
            None => false,
        }
    }

    /// Chooses for each row how the pivot row is taken from it, where every one fits. The number of the pivot row at the entering place is
    /// the negative of its denominator from now on: that of the leaving variable.
    fn prepare_rows(&mut self, index: usize, pivot: i128, place: usize) -> bool {
        let denominator = self.pivot_row.denominator;
        self.pivot_row.put(place, denominator.wrapping_neg());
        self.pivot_row.count();
        if pivot.unsigned_abs() > 1 << 100 {
            return false;
        }
        for (i, basic) in self.basic.as_mut_slice().iter_mut().enumerate() {
            if i != index && !basic.row.prepare(&self.pivot_row, pivot, place) {
                return false;
            }
        }
        self.costs.prepare(&self.pivot_row, pivot, place)
    }

    /// Takes the pivot row from each other row.
    fn eliminate_rows(&mut self, index: usize, pivot: i128, place: usize) {
        for (i, basic) in self.basic.as_mut_slice().iter_mut().enumerate() {
            if i != index {
                basic.row.eliminate(&self.pivot_row, place);
            }
        }
        self.costs.eliminate(&self.pivot_row, place);
        self.ties.eliminate(&self.pivot_row, pivot, place);
    }

    /// Makes the pivot row that of the entering variable, which leaves a side with the value given.
    fn return_pivot_row(&mut self, index: usize, pivot: i128, from: i128) {
        if pivot > 0 {
            self.pivot_row.negate();
        }
        let denominator = pivot.wrapping_abs();
        self.pivot_row.value = self
            .pivot_row
            .value
            .wrapping_add(from.wrapping_mul(denominator));
        self.pivot_row.denominator = denominator;
        match self.basic.as_mut_slice().get_mut(index) {
            Some(basic) => basic.row.copy_from(&self.pivot_row),
            None => {}
        }
    }

    /// Exchanges the variables themselves.
    fn exchange_variables(&mut self, leaving: &Leaving, entering: &Candidate, at_high: bool) {
        match self.basic.as_mut_slice().get_mut(leaving.index) {
            Some(basic) => basic.variable = entering.variable,
            None => {}
        }
        match self.nonbasic.as_mut_slice().get_mut(entering.place) {
            Some(nonbasic) => {
                *nonbasic = Nonbasic {
                    variable: leaving.variable,
                    at_high,
                }
            }
            None => {}
        }
    }
}
