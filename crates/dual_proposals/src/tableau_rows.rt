//! A row of the tableau.
use crate::places::{number_at, put};
use frac128::gcd;

/// The greatest absolute value of a number of a row.
const GREATEST: u128 = 1 << 126;

/// A denominator above which a row is divided before it changes, so that side times denominator fits.
const LARGE_DENOMINATOR: u128 = 1 << 62;

/// The greatest denominator.
const GREATEST_DENOMINATOR: u128 = 1 << 100;

/// How the pivot row is taken from another one: that is multiplied by `scale`, and loses `multiple` times the pivot row.
#[derive(Clone, Copy)]
pub struct Elimination {
    pub scale: i128,
    pub multiple: i128,
}

/// The elimination that changes nothing.
pub const NO_ELIMINATION: Elimination = Elimination {
    scale: 1,
    multiple: 0,
};

/// A row: `denominator` times its basic variable is `value` and the sum, over the nonbasic places, of number times the distance of the
/// nonbasic variable from its side. The row of the costs is kept likewise.
#[derive(Drop)]
pub struct TableauRow {
    /// One number for each nonbasic place.
    pub numbers: Vec<i128>,
    pub value: i128,
    pub denominator: i128,
    /// The sum of the absolute values of the numbers.
    pub absolute_sum: u128,
    /// How the pivot row of the step under way is taken from it.
    pub elimination: Elimination,
}

/// The sum of absolute values.
fn absolute_sum_of(numbers: &[i128]) -> u128 {
    let mut sum: u128 = 0;
    for number in numbers {
        sum = sum.wrapping_add(number.unsigned_abs());
    }
    sum
}

/// Multiplies numbers, and takes a multiple of others from them. Returns the sum of the absolute values.
fn combine(numbers: &mut [i128], scale: i128, others: &[i128], multiple: i128) -> u128 {
    let mut sum: u128 = 0;
    for (number, other) in numbers.iter_mut().zip(others) {
        *number = scale
            .wrapping_mul(*number)
            .wrapping_sub(multiple.wrapping_mul(*other));
        sum = sum.wrapping_add(number.unsigned_abs());
    }
    sum
}

/// Takes a multiple of other numbers from numbers. Returns the sum of the absolute values.
fn subtract(numbers: &mut [i128], others: &[i128], multiple: i128) -> u128 {
    let mut sum: u128 = 0;
    for (number, other) in numbers.iter_mut().zip(others) {
        if *other != 0 {
            *number = number.wrapping_sub(multiple.wrapping_mul(*other));
        }
        sum = sum.wrapping_add(number.unsigned_abs());
    }
    sum
}

impl TableauRow {
    /// The number at a place, 0 past the last one.
    #[inline]
    pub fn number(&self, place: usize) -> i128 {
        number_at(self.numbers.as_slice(), place)
    }

    /// Puts a number at a place, where there is one.
    #[inline]
    pub fn put(&mut self, place: usize, number: i128) {
        put(self.numbers.as_mut_slice(), place, number);
    }

    /// Sets each number and the value to 0, and the denominator to 1.
    pub fn clear(&mut self) {
        for number in self.numbers.as_mut_slice().iter_mut() {
            *number = 0;
        }
        self.value = 0;
        self.denominator = 1;
        self.absolute_sum = 0;
        self.elimination = NO_ELIMINATION;
    }

    /// Brings the sum of the absolute values up to date.
    pub fn count(&mut self) {
        self.absolute_sum = absolute_sum_of(self.numbers.as_slice());
    }

    /// The greatest number that divides the denominator, the value and each number.
    fn common_divisor(&self) -> u128 {
        let mut divisor = gcd(self.denominator.unsigned_abs(), self.value.unsigned_abs());
        for number in self.numbers.as_slice() {
            if divisor == 1 {
                return 1;
            }
            divisor = gcd(divisor, number.unsigned_abs());
        }
        divisor
    }

    /// Divides the row by the common divisor of its numbers.
    pub fn divide(&mut self) {
        match i128::try_from(self.common_divisor()) {
            Ok(divisor) => {
                if divisor > 1 {
                    for number in self.numbers.as_mut_slice().iter_mut() {
                        *number = number.wrapping_div(divisor);
                    }
                    self.value = self.value.wrapping_div(divisor);
                    self.denominator = self.denominator.wrapping_div(divisor);
                    self.count();
                }
            }
            Err(_) => {}
        }
    }

    /// Turns the sign of each number.
    pub fn negate(&mut self) {
        for number in self.numbers.as_mut_slice().iter_mut() {
            *number = number.wrapping_neg();
        }
        self.value = self.value.wrapping_neg();
    }

    /// Whether the row keeps within its limits after an elimination by a pivot row.
    fn fits(&self, scale: u128, multiple: u128, pivot_row: &TableauRow, denominator: u128) -> bool {
        let own = self.absolute_sum.checked_add(self.value.unsigned_abs());
        let other = pivot_row
            .absolute_sum
            .checked_add(pivot_row.value.unsigned_abs());
        let (Some(own), Some(other)) = (own, other) else {
            return false;
        };
        let (Some(own), Some(other)) = (own.checked_mul(scale), other.checked_mul(multiple)) else {
            return false;
        };
        match (
            own.checked_add(other),
            self.denominator.unsigned_abs().checked_mul(scale),
        ) {
            (Some(sum), Some(product)) => sum <= GREATEST && product <= denominator,
            _ => false,
        }
    }

    /// Sets the elimination that makes the number at a place 0. Returns false where the row would leave its limits, or its denominator
    /// would be above the greatest one given.
    fn choose(&mut self, pivot_row: &TableauRow, pivot: i128, place: usize, most: u128) -> bool {
        let number = self.number(place);
        let shared = gcd(pivot.unsigned_abs(), number.unsigned_abs()).max(1);
        let scale = pivot.unsigned_abs() / shared;
        let multiple = number.unsigned_abs() / shared;
        if !self.fits(scale, multiple, pivot_row, most) {
            return false;
        }
        let (Ok(scale), Ok(multiple)) = (i128::try_from(scale), i128::try_from(multiple)) else {
            return false;
        };
        let turned = (number < 0) != (pivot < 0);
        self.elimination = Elimination {
            scale,
            multiple: if turned {
                multiple.wrapping_neg()
            } else {
                multiple
            },
        };
        true
    }

    /// Chooses how the pivot row is taken from this one, which is divided first where its numbers are large. Returns false where a number
    /// does not fit; what the row says is the same in each case.
    pub fn prepare(&mut self, pivot_row: &TableauRow, pivot: i128, place: usize) -> bool {
        if self.number(place) == 0 {
            self.elimination = NO_ELIMINATION;
            return true;
        }
        if self.choose(pivot_row, pivot, place, LARGE_DENOMINATOR) {
            return true;
        }
        self.divide();
        self.choose(pivot_row, pivot, place, GREATEST_DENOMINATOR)
    }

    /// Takes the pivot row from this one, as was chosen.
    pub fn eliminate(&mut self, pivot_row: &TableauRow, place: usize) {
        let Elimination { scale, multiple } = self.elimination;
        if multiple == 0 {
            return;
        }
        self.put(place, 0);
        let others = pivot_row.numbers.as_slice();
        let numbers = self.numbers.as_mut_slice();
        self.absolute_sum = if scale == 1 {
            subtract(numbers, others, multiple)
        } else {
            combine(numbers, scale, others, multiple)
        };
        self.value = scale
            .wrapping_mul(self.value)
            .wrapping_sub(multiple.wrapping_mul(pivot_row.value));
        self.denominator = self.denominator.wrapping_mul(scale);
    }

    /// Takes over the numbers of another row of as many numbers.
    pub fn copy_from(&mut self, other: &TableauRow) {
        for (number, others) in self
            .numbers
            .as_mut_slice()
            .iter_mut()
            .zip(other.numbers.as_slice())
        {
            *number = *others;
        }
        self.value = other.value;
        self.denominator = other.denominator;
        self.absolute_sum = other.absolute_sum;
    }
}
