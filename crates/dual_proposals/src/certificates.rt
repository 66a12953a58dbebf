//! The certificates of a tableau: the multipliers of its bound, and those of a ray.
use crate::leaving::Leaving;
use crate::places::{excess_bits, greatest, put};
use crate::tableau_rows::TableauRow;
use crate::tableaus::{DualTableau, Nonbasic};
use frac128::gcd;
use ip_defs::{Cert, Memory, Multipliers};
use std::alloc::Global;

/// The greatest absolute value of a number of a certificate.
const GREATEST: u128 = (1 << 36) - 1;

/// The numbers of a certificate before they are divided by what they have in common: a divisor, and one multiplier for each row.
#[derive(Drop)]
struct Duals {
    divisor: i128,
    multipliers: Vec<i128>,
}

/// The greatest common divisor of the numbers.
fn common_divisor(duals: &Duals) -> u128 {
    let mut shared = duals.divisor.unsigned_abs();
    for multiplier in duals.multipliers.as_slice() {
        if shared != 1 {
            shared = gcd(shared, multiplier.unsigned_abs());
        }
    }
    shared.max(1)
}

/// How many bits more than the limit the numbers have once they are divided.
fn shift_of(duals: &Duals, shared: i128) -> u32 {
    let most = greatest(duals.multipliers.as_slice()).max(duals.divisor.unsigned_abs());
    match most.checked_div(shared.unsigned_abs()) {
        Some(most) => excess_bits(most, GREATEST),
        None => 0,
    }
}

/// A quotient of a number, shifted down and rounded toward zero.
fn shortened(number: i128, shared: i128, shift: u32) -> Option<i64> {
    let Some(quotient) = number.checked_div(shared) else {
        return None;
    };
    let short = quotient.unsigned_abs().wrapping_shr(shift);
    let Ok(short) = i64::try_from(short) else {
        return None;
    };
    Some(if quotient < 0 {
        short.wrapping_neg()
    } else {
        short
    })
}

/// The certificate of numbers: divided by what they have in common, and where they exceed the limit even so, rounded toward 0, if that is
/// allowed. None where it is not, or where a positive divisor becomes 0.
fn certificate_of(alloc: Global, duals: &Duals, may_round: bool) -> Result<Option<Cert>, Memory> {
    let Ok(shared) = i128::try_from(common_divisor(duals)) else {
        return Ok(None);
    };
    let shift = shift_of(duals, shared);
    let Some(q) = shortened(duals.divisor, shared, shift) else {
        return Ok(None);
    };
    if (shift > 0 && !may_round) || (q == 0 && duals.divisor != 0) {
        return Ok(None);
    }
    let mut y = Multipliers::from_vec(Vec::new(alloc));
    for (k, multiplier) in duals.multipliers.iter().enumerate() {
        let (Ok(row), Some(multiplier)) = (u32::try_from(k), shortened(*multiplier, shared, shift))
        else {
            return Ok(None);
        };
        if multiplier != 0 {
            y.push((row, multiplier))?;
        }
    }
    Ok(Some(Cert { q, y }))
}

/// Writes the numbers of a tableau's row at its nonbasic slacks, one for each row of the model.
fn put_slacks(
    multipliers: &mut [i128],
    row: &TableauRow,
    nonbasic: &[Nonbasic],
    columns: usize,
    turned: bool,
) {
    for (number, nonbasic) in row.numbers.iter().zip(nonbasic) {
        if nonbasic.variable >= columns {
            let number = if turned {
                number.wrapping_neg()
            } else {
                *number
            };
            put(multipliers, nonbasic.variable.wrapping_sub(columns), number);
        }
    }
}

impl DualTableau {
    /// The certificate of the tableau's bound. None where its numbers exceed the limit and may not be rounded.
    pub(crate) fn bound_certificate(
        &self,
        alloc: Global,
        may_round: bool,
    ) -> Result<Option<Cert>, Memory> {
        let mut multipliers = vec![in alloc; 0; self.basic.len()]?;
        put_slacks(
            multipliers.as_mut_slice(),
            &self.costs,
            self.nonbasic.as_slice(),
            self.columns,
            false,
        );
        let duals = Duals {
            divisor: self.costs.denominator,
            multipliers,
        };
        certificate_of(alloc, &duals, may_round)
    }

    /// The ray of the row of a basic variable that nothing brings to its side: a certificate with the divisor 0.
    pub(crate) fn ray(&self, alloc: Global, leaving: &Leaving) -> Result<Option<Cert>, Memory> {
        let row = match self.basic.as_slice().get(leaving.index) {
            Some(basic) => &basic.row,
            None => return Ok(None),
        };
        let mut multipliers = vec![in alloc; 0; self.basic.len()]?;
        put_slacks(
            multipliers.as_mut_slice(),
            row,
            self.nonbasic.as_slice(),
            self.columns,
            leaving.rises,
        );
        if leaving.variable >= self.columns {
            let own = if leaving.rises {
                row.denominator
            } else {
                row.denominator.wrapping_neg()
            };
            let slack = leaving.variable.wrapping_sub(self.columns);
            put(multipliers.as_mut_slice(), slack, own);
        }
        let duals = Duals {
            divisor: 0,
            multipliers,
        };
        certificate_of(alloc, &duals, true)
    }
}
