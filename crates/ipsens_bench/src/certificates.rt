//! Bounds of a leaf: one certificate over the box of a model of 1,000 columns and 200 rows.

use crate::BenchError;
use ip_model::box_of;
use leaf_cert::{Bound, Cert, Multipliers, cert_ok, leaf_bound, scratch};
use sample_models::block_model;
use std::alloc::{AllocError, Global};

/// The number of rows of the model.
const ROWS: u32 = 200;

/// The multiplier of a row: from 1 to 7 in absolute value, in turn positive and negative.
fn multiplier(row: u32) -> i64 {
    let absolute_value = i64::from(row % 7) + 1;
    if row % 2 == 0 {
        absolute_value
    } else {
        -absolute_value
    }
}

/// A certificate with a multiplier for each row.
fn cert(alloc: Global) -> Result<Cert, AllocError> {
    let mut y = Multipliers::from_vec(Vec::new(alloc));
    for row in 0..ROWS {
        y.push((row, multiplier(row)))?;
    }
    Ok(Cert { q: 3, y })
}

/// The bound of the certificate over the model's box, computed a number of times.
pub fn bound_after(alloc: Global, count: u32) -> Result<Bound, BenchError> {
    let model = block_model(alloc)?;
    let cert = cert(alloc)?;
    if !cert_ok(&cert, ROWS) || model.parts().rows.as_slice().len() != ROWS as usize {
        return Err(BenchError::NoModel);
    }
    let area = box_of(alloc, &model)?;
    let mut scratch = scratch(alloc, &model)?;
    let mut bound = Bound::Infinite;
    for _ in 0..count {
        bound = leaf_bound(&model, &cert, &area, &mut scratch);
    }
    Ok(bound)
}
