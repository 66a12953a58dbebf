//! The point of a tableau, as numerators over one denominator.
ghost use Rattle.std.specs.Prelude.{◌≡◌, IfOk, IfSome, length};

use crate::places::put;
use crate::tableaus::{DualTableau, nonbasic_value};
use frac128::gcd;
use ip_defs::Memory;
use slackness::Numerators;
use std::alloc::Global;

/// The greatest denominator that the check takes.
const GREATEST_DENOMINATOR: i128 = 1 << 50;

/// A point: numerators, one for each column, over a positive denominator.
#[derive(Drop)]
pub struct Fractional {
    pub numerators: Numerators,
    pub denominator: i128,
}

/// A fraction in lowest terms, none where the denominator is not positive.
fn lowest(numerator: i128, denominator: i128) -> Option<(i128, i128)> {
    if denominator <= 0 {
        return None;
    }
    match i128::try_from(gcd(numerator.unsigned_abs(), denominator.unsigned_abs()).max(1)) {
        Ok(shared) => Some((
            numerator.wrapping_div(shared),
            denominator.wrapping_div(shared),
        )),
        Err(_) => None,
    }
}

/// The least common multiple of two positive numbers, none where it is above the greatest denominator.
fn common_multiple(a: i128, b: i128) -> Option<i128> {
    let shared = match i128::try_from(gcd(a.unsigned_abs(), b.unsigned_abs()).max(1)) {
        Ok(shared) => shared,
        Err(_) => return None,
    };
    match a.wrapping_div(shared).checked_mul(b) {
        Some(multiple) => {
            if 0 < multiple && multiple <= GREATEST_DENOMINATOR {
                Some(multiple)
            } else {
                None
            }
        }
        None => None,
    }
}

impl DualTableau {
    /// A common denominator of the values of the basic columns.
    fn common_denominator(&self) -> Option<i128> {
        let mut denominator: i128 = 1;
        for basic in self.basic.iter() {
            if basic.variable < self.columns {
                let Some((_, own)) = lowest(basic.row.value, basic.row.denominator) else {
                    return None;
                };
                match common_multiple(denominator, own) {
                    Some(multiple) => denominator = multiple,
                    None => return None,
                }
            }
        }
        Some(denominator)
    }

    /// Writes the numerators of the nonbasic columns.
    fn put_nonbasic(&self, numerators: &mut [i128], denominator: i128)
        ensures { length numerators.new ≡ length numerators.old }
    {
        for (place, nonbasic) in self.nonbasic.iter().enumerate() {
            if nonbasic.variable < self.columns {
                let value = nonbasic_value(self.ranges.as_slice(), self.nonbasic.as_slice(), place);
                put(
                    numerators,
                    nonbasic.variable,
                    value.wrapping_mul(denominator),
                );
            }
        }
    }

    /// Writes the numerators of the basic columns.
    fn put_basic(&self, numerators: &mut [i128], denominator: i128)
        ensures { length numerators.new ≡ length numerators.old }
    {
        for basic in self.basic.iter() {
            if basic.variable < self.columns {
                match lowest(basic.row.value, basic.row.denominator) {
                    Some((numerator, own)) => {
                        let times = if own > 0 { denominator / own } else { 0 };
                        put(numerators, basic.variable, numerator.wrapping_mul(times));
                    }
                    None => {}
                }
            }
        }
    }

    /// The point of the tableau with a number for each column, none where its common denominator is too large.
    pub(crate) fn point(&self, alloc: Global, columns: usize) -> Result<Option<Fractional>, Memory>
        ensures { IfOk result (λ o. IfSome o (λ p. length p.numerators ≡ columns)) }
    {
        let Some(denominator) = self.common_denominator() else {
            return Ok(None);
        };
        let mut numerators = vec![in alloc; 0; columns]?;
        self.put_nonbasic(numerators.as_mut_slice(), denominator);
        self.put_basic(numerators.as_mut_slice(), denominator);
        Ok(Some(Fractional {
            numerators: Numerators::from_vec(numerators),
            denominator,
        }))
    }
}
