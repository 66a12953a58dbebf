//! Bounds of leaves by hand.

use ip_model::IntModel;
use leaf_cert::{Area, Bound, Cert, Memory, Multipliers, cert_ok, leaf_bound, scratch};
use sample_models::{SampleError, at_every_limit, is_box, parity, three_rows};
use std::alloc::{Alloc, Global};

/// A certificate of a divisor and multipliers.
fn cert(alloc: Global, q: i64, y: &[(u32, i64)]) -> Result<Cert, Memory> {
    Ok(Cert {
        q,
        y: Multipliers::from_vec(Vec::from_slice(alloc, y)?),
    })
}

/// A box of the same bounds in each column but the last.
fn area(
    alloc: Global,
    columns: usize,
    sides: (i64, i64),
    last: (i64, i64),
) -> Result<Area, Memory> {
    let mut all = Vec::new(alloc);
    for _ in 1..columns {
        all.push(sides)?;
    }
    all.push(last)?;
    Ok(Area::from_vec(all))
}

/// The bound of a certificate over a box, where both are within the limits.
fn bound_over(
    alloc: Global,
    model: &IntModel,
    cert: &Cert,
    area: &Area,
) -> Result<Option<Bound>, Memory> {
    let columns = model.parts().columns.as_slice().len();
    let rows = u32::try_from(model.parts().rows.as_slice().len()).unwrap_or(0);
    let mut scratch = scratch(alloc, model)?;
    if cert_ok(cert, rows) && is_box(area, columns) {
        Ok(Some(leaf_bound(model, cert, area, &mut scratch)))
    } else {
        Ok(None)
    }
}

/// The bound of a divisor and multipliers over a box of the same bounds in each column but the last.
fn bound_of(
    alloc: Global,
    model: &IntModel,
    q: i64,
    y: &[(u32, i64)],
    sides: (i64, i64),
    last: (i64, i64),
) -> Result<Option<Bound>, Memory> {
    let columns = model.parts().columns.as_slice().len();
    match (cert(alloc, q, y), area(alloc, columns, sides, last)) {
        (Ok(cert), Ok(area)) => bound_over(alloc, model, &cert, &area),
        _ => Err(Memory),
    }
}

/// As `bound_of`, over a model for which memory sufficed.
fn bound_in(
    alloc: Global,
    model: Result<IntModel, SampleError>,
    q: i64,
    y: &[(u32, i64)],
    sides: (i64, i64),
    last: (i64, i64),
) -> Result<Option<Bound>, SampleError> {
    match model {
        Ok(model) => Ok(bound_of(alloc, &model, q, y, sides, last)?),
        Err(error) => Err(error),
    }
}

/// A divisor, multipliers of rows, the bounds of the last column and the wanted bound.
type Leaf = (i64, &'static [(u32, i64)], (i64, i64), Option<Bound>);

/// The bounds of each column of the three rows.
const WHOLE: (i64, i64) = (0, 10);

/// Bounds of an empty column.
const EMPTY: (i64, i64) = (3, 2);

const LEAVES: [Leaf; 9] = [
    // the optimal dual prices
    (1, &[(0, -1), (2, -1)], WHOLE, Some(Bound::At(-13))),
    // halves are rounded up
    (2, &[(0, -1), (2, -3)], WHOLE, Some(Bound::At(-14))),
    // no row has a low side, so the sum of the box is left
    (1, &[(0, 1), (2, -1)], WHOLE, Some(Bound::At(-120))),
    // out of order, and no row of this number
    (1, &[(2, -1), (0, -1)], WHOLE, None),
    (1, &[(0, -1), (3, -1)], WHOLE, None),
    // rays
    (0, &[(0, 1)], WHOLE, Some(Bound::At(-120))),
    (0, &[(0, -1)], WHOLE, Some(Bound::At(-120))),
    // an empty column
    (1, &[(0, -1)], EMPTY, Some(Bound::Infinite)),
    (0, &[(0, 1)], EMPTY, Some(Bound::Infinite)),
];

#[test]
fn leaves_of_three_rows(rt: HostRuntime) {
    let alloc = rt.alloc();
    for (q, y, last, want) in &LEAVES {
        let got = bound_in(alloc, three_rows(alloc), *q, *y, WHOLE, *last);
        assert!(rt; got == Ok(*want));
    }
}

/// The multiplier of a ray, the bounds of the first column and of the last, and the wanted bound.
const RAYS: [(i64, (i64, i64), (i64, i64), Bound); 5] = [
    (1, (0, 0), (0, 0), Bound::Infinite),
    (-1, (1, 1), (0, 0), Bound::Infinite),
    (1, (1, 1), (1, 1), Bound::Infinite),
    // the dual value of the ray is not above 0
    (1, (0, 1), (0, 1), Bound::At(0)),
    (-1, (0, 0), (0, 0), Bound::At(0)),
];

#[test]
fn rays_of_parity(rt: HostRuntime) {
    let alloc = rt.alloc();
    for (y, sides, last, want) in &RAYS {
        let got = bound_in(alloc, parity(alloc, 1), 0, &[(0, *y)], *sides, *last);
        assert!(rt; got == Ok(Some(*want)));
    }
}

/// The greatest multiplier in each of 1,024 rows.
fn greatest_multipliers(alloc: Global) -> Result<Vec<(u32, i64)>, Memory> {
    let mut y = Vec::with_capacity(alloc, 1024)?;
    for i in 0..1024 {
        y.push((i, 1 << 36))?;
    }
    Ok(y)
}

/// The bound of a certificate at every limit over the whole box of the model at every limit.
fn bound_at_every_limit(alloc: Global) -> Result<Option<Bound>, SampleError> {
    let whole = (-(1 << 24), 1 << 24);
    let y = greatest_multipliers(alloc)?;
    bound_in(
        alloc,
        at_every_limit(alloc),
        1 << 36,
        y.as_slice(),
        whole,
        whole,
    )
}

#[test]
fn numbers_at_every_limit(rt: HostRuntime) {
    // 2^108 + 2^98 - (195 * 1025 + 321 + 3900) * 2^100, over 2^36
    let want = Bound::At(-815_359 * (1i128 << 62));
    assert!(rt; bound_at_every_limit(rt.alloc()) == Ok(Some(want)));
}
