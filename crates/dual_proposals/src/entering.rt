//! The exact ratio test: of the nonbasic variables that help the leaving one, the one whose reduced cost becomes 0 first enters.
use crate::leaving::Leaving;
use crate::quotients::is_less;
use crate::tableaus::DualTableau;

/// A nonbasic variable that can enter, with absolute values.
#[derive(Clone, Copy)]
pub struct Candidate {
    pub place: usize,
    pub variable: usize,
    pub reduced_cost: u128,
    /// Its number in the row of the leaving variable.
    pub number: u128,
    /// Its perturbation, 0 where there is none.
    pub perturbation: u128,
}

impl Candidate {
    /// Whether this one enters rather than another: by the reduced cost over the number, then the perturbation over the number, then the
    /// greater number, then the lesser variable; or, where the ratios are equal, by the variable alone.
    fn is_before(&self, other: &Candidate, by_least_number: bool) -> bool {
        if is_less(
            self.reduced_cost,
            self.number,
            other.reduced_cost,
            other.number,
        ) {
            return true;
        }
        if is_less(
            other.reduced_cost,
            other.number,
            self.reduced_cost,
            self.number,
        ) {
            return false;
        }
        if by_least_number {
            return self.variable < other.variable;
        }
        if is_less(
            self.perturbation,
            self.number,
            other.perturbation,
            other.number,
        ) {
            return true;
        }
        if is_less(
            other.perturbation,
            other.number,
            self.perturbation,
            self.number,
        ) {
            return false;
        }
        self.number > other.number
            || (self.number == other.number && self.variable < other.variable)
    }
}

impl DualTableau {
    /// The candidate at a place, where its variable can move so that the leaving one approaches its side.
    #[inline]
    fn candidate(&self, place: usize, number: i128, rises: bool) -> Option<Candidate> {
        if number == 0 {
            return None;
        }
        let nonbasic = match self.nonbasic.as_slice().get(place) {
            Some(nonbasic) => *nonbasic,
            None => return None,
        };
        if (number > 0) != (rises != nonbasic.at_high) {
            return None;
        }
        match self.ranges.as_slice().get(nonbasic.variable) {
            Some(range) => {
                if range.is_fixed() {
                    return None;
                }
            }
            None => return None,
        }
        Some(Candidate {
            place,
            variable: nonbasic.variable,
            reduced_cost: self.costs.number(place).unsigned_abs(),
            number: number.unsigned_abs(),
            perturbation: self.ties.perturbation(place),
        })
    }

    /// The nonbasic variable that enters for a leaving one. None where nothing brings that nearer to its side: no point is left.
    pub(crate) fn entering(&self, leaving: &Leaving, by_least_number: bool) -> Option<Candidate> {
        let row = match self.basic.as_slice().get(leaving.index) {
            Some(basic) => &basic.row,
            None => return None,
        };
        let mut found: Option<Candidate> = None;
        for (place, number) in row.numbers.iter().enumerate() {
            match (self.candidate(place, *number, leaving.rises), &found) {
                (Some(candidate), Some(other)) => {
                    if candidate.is_before(other, by_least_number) {
                        found = Some(candidate);
                    }
                }
                (Some(candidate), None) => found = Some(candidate),
                (None, _) => {}
            }
        }
        found
    }
}
