//! The multipliers of rows: fractions times a common multiple of their denominators.
ghost use Rattle.std.specs.Prelude.{◌≡◌, ◌^◌, ◌≤◌, ◌++◌, ◌∷◌, [], filter, length, map, IfOk, OnOk};
ghost use Rattle.frac128.specs.Values.{value_of};
ghost use Rattle.dual_rays.specs.Certificates.{is_present, multiplier_of, multipliers_of, values};
ghost use Rattle.dual_rays.specs.Multiples.{multiple};

use crate::denominators::{LARGEST, denominator};
use frac128::Frac;
use ip_defs::{Memory, Multipliers};
use std::alloc::{AllocError, Global};

/// A fraction times a multiple of its denominator, none where that exceeds the limit.
fn multiplier(q: u128, x: Frac) -> Option<i64>
    requires { q ≤ 2 ^ 36 }
    ensures { result ≡ multiplier_of (multiple q (value_of x)) }
{
    let times = (q / denominator(x)) as i128;
    match x.num().checked_mul(times) {
        Some(multiple) if multiple.unsigned_abs() <= LARGEST => Some(multiple as i64),
        _ => None,
    }
}

/// Appends the multiplier of a row, unless it is 0.
fn add(y: &mut Multipliers, row: u32, multiple: i64) -> Result<(), AllocError>
    ensures { OnOk result (y.new ≡ y.old ++ filter is_present ((row, multiple) ∷ [])) }
{
    if multiple == 0 {
        return Ok(());
    }
    y.push((row, multiple))
}

/// The multiples of the fractions by row, without zeros; none where one of them exceeds the limit.
pub fn multipliers(alloc: Global, q: u128, prices: &[Frac]) -> Result<Option<Multipliers>, Memory>
    requires limit { q ≤ 2 ^ 36 }
    requires size { length prices.now ≤ 1024 }
    ensures { IfOk result (λ y. y ≡ multipliers_of (map (multiple q) (values prices.now))) }
{
    let mut y = Multipliers::from_vec(Vec::new(alloc));
    for (row, price) in prices.iter().enumerate() {
        match multiplier(q, *price) {
            Some(multiple) => add(&mut y, row as u32, multiple)?,
            None => return Ok(None),
        }
    }
    Ok(Some(y))
}
