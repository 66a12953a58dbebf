//! The perturbation that breaks ties of the ratio test where many steps in turn do not raise the bound: a second row of costs, small and
//! pseudo-random from a fixed seed, of which about 40 bits are kept.
use crate::places::{excess_bits, greatest};
use crate::tableau_rows::TableauRow;
use crate::tableaus::Nonbasic;
use ip_defs::Memory;
use std::alloc::Global;

/// The seed of the pseudo-random numbers.
const SEED: u64 = 0x9e37_79b9_7f4a_7c15;

/// The greatest absolute value that is kept.
const GREATEST: u128 = 1 << 40;

/// The row of the perturbation.
#[derive(Drop)]
pub struct TieRow {
    numbers: Vec<i128>,
    is_on: bool,
}

/// A pseudo-random number from 2^20 to 2^21 for a variable.
fn scattered(variable: usize) -> i128 {
    let mut bits = (variable as u64).wrapping_add(1).wrapping_mul(SEED);
    bits = (bits ^ (bits >> 30)).wrapping_mul(0xbf58_476d_1ce4_e5b9);
    bits = (bits ^ (bits >> 27)).wrapping_mul(0x94d0_49bb_1331_11eb);
    bits = bits ^ (bits >> 31);
    i128::from((bits >> 44) | (1 << 20))
}

impl TieRow {
    /// A row that is off.
    pub fn new(alloc: Global, places: usize) -> Result<TieRow, Memory> {
        Ok(TieRow {
            numbers: vec![in alloc; 0; places]?,
            is_on: false,
        })
    }

    /// Turns the perturbation off.
    pub fn turn_off(&mut self) {
        self.is_on = false;
    }

    /// Turns the perturbation on: each nonbasic variable gets a reduced cost that keeps it at the side at which it is.
    pub fn turn_on(&mut self, nonbasic: &[Nonbasic]) {
        if self.is_on {
            return;
        }
        for (number, variable) in self.numbers.as_mut_slice().iter_mut().zip(nonbasic) {
            let cost = scattered(variable.variable);
            *number = if variable.at_high {
                cost.wrapping_neg()
            } else {
                cost
            };
        }
        self.is_on = true;
    }

    /// The absolute value of the perturbation of a place, 0 where it is off.
    #[inline]
    pub fn perturbation(&self, place: usize) -> u128 {
        if !self.is_on {
            return 0;
        }
        match self.numbers.as_slice().get(place) {
            Some(number) => number.unsigned_abs(),
            None => 0,
        }
    }

    /// Follows a step with a pivot row, in about 60 bits of that row.
    pub fn eliminate(&mut self, pivot_row: &TableauRow, pivot: i128, place: usize) {
        if !self.is_on {
            return;
        }
        let factor = match self.numbers.as_mut_slice().get_mut(place) {
            Some(number) => {
                let factor = if pivot < 0 {
                    number.wrapping_neg()
                } else {
                    *number
                };
                *number = 0;
                factor
            }
            None => 0,
        };
        let most = greatest(pivot_row.numbers.as_slice()).max(pivot.unsigned_abs());
        let shift = excess_bits(most, 1 << 60);
        let scale = pivot.wrapping_abs().wrapping_shr(shift);
        let numbers = self.numbers.as_mut_slice();
        for (number, other) in numbers.iter_mut().zip(pivot_row.numbers.as_slice()) {
            *number = scale
                .wrapping_mul(*number)
                .wrapping_sub(factor.wrapping_mul(other.wrapping_shr(shift)));
        }
        self.shorten();
    }

    /// Shifts the numbers so that they lie within the limit.
    fn shorten(&mut self) {
        let shift = excess_bits(greatest(self.numbers.as_slice()), GREATEST);
        if shift == 0 {
            return;
        }
        for number in self.numbers.as_mut_slice().iter_mut() {
            *number = number.wrapping_shr(shift);
        }
    }
}
