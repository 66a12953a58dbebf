//! The tableau goes from one box to another. It stays dual feasible: no reduced cost changes.
use crate::ranges::Range;
use crate::tableau_rows::TableauRow;
use crate::tableaus::DualTableau;
use ip_defs::Area;
use ip_model::IntModel;

/// Adds to the value of a row what a nonbasic variable adds that moves by a distance. Returns false where it does not fit.
fn shift(row: &mut TableauRow, place: usize, distance: i128) -> bool {
    let number = row.number(place);
    if number == 0 {
        return true;
    }
    let Some(change) = number.checked_mul(distance) else {
        return false;
    };
    match row.value.checked_add(change) {
        Some(value) => {
            row.value = value;
            true
        }
        None => false,
    }
}

impl DualTableau {
    /// Brings the tableau to a box: from where it is, or anew where a number did not fit before or does not fit now.
    pub(crate) fn move_to(&mut self, model: &IntModel, area: &Area) {
        if self.is_spent || !self.move_columns(area.as_slice()) {
            self.begin_at(model.parts(), area);
        } else {
            self.set_ranges(area.as_slice());
        }
    }

    /// Moves each nonbasic column to the side of a box that its reduced cost favours.
    fn move_columns(&mut self, area: &[(i64, i64)]) -> bool {
        for place in 0..self.columns {
            let distance = self.choose_side(place, area);
            if distance != 0 && !self.shift_rows(place, distance) {
                return false;
            }
        }
        true
    }

    /// Chooses the side of a box at which the variable of a place is from now on, and returns how far it moves. A slack does not move.
    fn choose_side(&mut self, place: usize, area: &[(i64, i64)]) -> i128 {
        let reduced_cost = self.costs.number(place);
        let Some(nonbasic) = self.nonbasic.as_mut_slice().get_mut(place) else {
            return 0;
        };
        let Some(side) = area.get(nonbasic.variable) else {
            return 0;
        };
        let before = match self.ranges.as_slice().get(nonbasic.variable) {
            Some(range) => range.side(nonbasic.at_high),
            None => 0,
        };
        if reduced_cost != 0 {
            nonbasic.at_high = reduced_cost < 0;
        }
        Range::between(side.0, side.1)
            .side(nonbasic.at_high)
            .wrapping_sub(before)
    }

    /// Moves the variable of a place by a distance in each row.
    fn shift_rows(&mut self, place: usize, distance: i128) -> bool {
        for basic in self.basic.as_mut_slice().iter_mut() {
            if !shift(&mut basic.row, place, distance) {
                return false;
            }
        }
        shift(&mut self.costs, place, distance)
    }
}
