//! Pivots of a tableau of 133 rows and 334 variables, there and back at one place after the other. Its entries are small whole numbers
//! throughout.
ghost use Rattle.std.specs.Prelude.{◌≡◌, ◌<◌};

use crate::BenchError;
use ip_model::box_of;
use sample_models::dense_model;
use std::alloc::Global;
use std::marker::Brand;
use std::sync::ledger::{Blank, Ledger};
use tableau::{Rest, Steps, Tableau, start};

/// The number of columns of the model.
const COLUMNS: u32 = 201;

/// The number of rows of the model.
const ROWS: u32 = 133;

/// Pivots where that can be done and no number is wide; the basic variable leaves to its low side. The answer says whether it was done.
fn step<L: Ledger>(tableau: &mut Tableau, row: u32, var: u32, steps: &mut Steps<L>) -> bool {
    if !tableau.has(row, var) {
        return false;
    }
    if tableau.rest(var) == Rest::Basic || tableau.entry(row, var).num() == 0 {
        return false;
    }
    let basic = tableau.basic(row);
    if !tableau.can_rest(basic, Rest::Low) {
        return false;
    }
    match tableau.pivot(row, var, Rest::Low, steps) {
        Ok(()) => true,
        Err(_) => false,
    }
}

/// A checksum of the entries.
fn checksum(tableau: &Tableau) -> u64 {
    let mut sum = 0u64;
    for row in 0..ROWS {
        for var in 0..COLUMNS + ROWS {
            if tableau.has(row, var) {
                let entry = tableau.entry(row, var);
                let low_bits = (entry.num() & 0xffff_ffff) as u64;
                sum = sum.wrapping_mul(31).wrapping_add(low_bits);
            }
        }
    }
    sum
}

/// The checksum after a number of pivots, in turn there and back.
fn pivot_often<L: Ledger>(
    blank: Blank,
    tableau: &mut Tableau,
    count: u32,
) -> Result<u64, BenchError>
    requires name { blank.name ≡ L.name }
    requires parts { blank.parts ≡ L.parts }
    requires some { 0 < L.parts }
{
    let mut steps = Steps::<L>::new(blank);
    for round in 0..count {
        let row = round / 2 % ROWS;
        let var = if round % 2 == 0 { row } else { COLUMNS + row };
        if !step(tableau, row, var, &mut steps) {
            return Err(BenchError::NoPivot);
        }
    }
    Ok(checksum(tableau))
}

/// The checksum of the model's tableau after a number of pivots, for a counter of steps.
fn pivoted(alloc: Global, count: u32, blank: Blank) -> Result<u64, BenchError>
    requires { 0 < blank.parts }
{
    let model = dense_model(alloc)?;
    let area = box_of(alloc, &model)?;
    if area.as_slice().len() != model.parts().columns.as_slice().len() {
        return Err(BenchError::NoModel);
    }
    let mut tableau = start(alloc, &model, &area)?;
    pivot_often::<Brand>(blank, &mut tableau, count)
}

/// The checksum of the model's tableau after a number of pivots.
pub fn checksum_after(alloc: Global, count: u32) -> Result<u64, BenchError> {
    pivoted(alloc, count, Blank::new(1))
}
