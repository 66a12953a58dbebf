//! Certificates from prices and from rays that are given by hand.
use dual_rays::{Cert, Fracs, Memory, cert_of_prices, cert_of_ray};
use frac128::{Frac, frac};
use ip_defs::{Area, Bound};
use ip_model::IntModel;
use leaf_cert::{cert_ok, leaf_bound, scratch};
use sample_models::{SampleError, half, is_box};
use std::alloc::{Alloc, AllocError, Global};

/// Prices or a ray as numerators and denominators; and the divisor and the multipliers of its certificate, none where it has none.
type Case<'a> = (&'a [(i128, i128)], Option<(i64, &'a [(u32, i64)])>);

/// The greatest absolute value of a certificate's numbers.
const GREATEST: i64 = 1 << 36;

/// The same in the type of a numerator.
const LONGEST: i128 = 1 << 36;

/// A number of 101 bits.
const LONG: i128 = (1 << 100) + 1;

/// The fraction of a numerator and a denominator, 0 where there is none.
fn fraction(num: i128, den: i128) -> Frac {
    if den == 0 || num == i128::MIN || den == i128::MIN {
        frac(0, 1)
    } else {
        frac(num, den)
    }
}

/// The fractions of pairs.
fn fractions(alloc: Global, pairs: &[(i128, i128)]) -> Result<Fracs, Memory> {
    let mut numbers = Vec::with_capacity(alloc, pairs.len())?;
    for (num, den) in pairs {
        numbers.push(fraction(*num, *den))?;
    }
    Ok(Fracs::from_vec(numbers))
}

/// The certificate of prices or of a ray.
fn certificate(alloc: Global, is_ray: bool, numbers: &Fracs) -> Result<Option<Cert>, Memory> {
    if numbers.as_slice().len() > 1024 {
        return Ok(None);
    }
    if is_ray {
        cert_of_ray(alloc, numbers)
    } else {
        cert_of_prices(alloc, numbers)
    }
}

/// The certificate of prices or of a ray that are given as pairs.
fn certificate_of(
    alloc: Global,
    is_ray: bool,
    pairs: &[(i128, i128)],
) -> Result<Option<Cert>, Memory> {
    let numbers = fractions(alloc, pairs)?;
    certificate(alloc, is_ray, &numbers)
}

/// Whether a certificate has this divisor and these multipliers.
fn is_expected(cert: &Option<Cert>, expected: Option<(i64, &[(u32, i64)])>) -> bool {
    match cert {
        Some(cert) => expected == Some((cert.q, cert.y.as_slice())),
        None => expected.is_none(),
    }
}

/// Whether the certificate of prices or of a ray is the expected one.
fn has_certificate(alloc: Global, is_ray: bool, case: &Case<'_>) -> bool {
    match certificate_of(alloc, is_ray, case.0) {
        Ok(cert) => is_expected(&cert, case.1),
        Err(_) => false,
    }
}

const OF_PRICES: [Case; 10] = [
    (&[], Some((1, &[]))),
    (&[(0, 1), (0, 1)], Some((1, &[]))),
    (&[(-1, 2), (0, 1)], Some((2, &[(0, -1)]))),
    (&[(1, 2), (-2, 3)], Some((6, &[(0, 3), (1, -4)]))),
    (&[(5, 6), (3, 4)], Some((12, &[(0, 10), (1, 9)]))),
    (&[(1, 2), (0, 1), (-2, 3)], Some((6, &[(0, 3), (2, -4)]))),
    // the greatest denominator, and one more
    (&[(1, LONGEST), (0, 1)], Some((GREATEST, &[(0, 1)]))),
    (&[(1, LONGEST + 1), (0, 1)], None),
    // the greatest multiplier, and one more
    (&[(0, 1), (-LONGEST, 1)], Some((1, &[(1, -GREATEST)]))),
    (&[(0, 1), (LONGEST + 1, 1)], None),
];

#[test]
fn certificates_of_prices(rt: HostRuntime) -> Result<(), SampleError> {
    for case in &OF_PRICES {
        assert!(rt; has_certificate(rt.alloc(), false, case));
    }
    Ok(())
}

const OF_RAYS: [Case; 10] = [
    (&[(2, 3), (-4, 3)], Some((0, &[(0, 1), (1, -2)]))),
    (&[(6, 1), (9, 1)], Some((0, &[(0, 2), (1, 3)]))),
    (&[(0, 1), (-7, 5)], Some((0, &[(1, -1)]))),
    (&[(0, 1), (0, 1)], Some((0, &[]))),
    (&[(-3, 4), (5, 6)], Some((0, &[(0, -9), (1, 10)]))),
    // the greatest multiplier, and one more
    (&[(1, LONGEST), (1, 1)], Some((0, &[(0, 1), (1, GREATEST)]))),
    (&[(1, LONGEST + 1), (1, 1)], None),
    (&[(LONGEST + 1, 1), (1, 1)], None),
    // numbers with more bits than a product of two of them, with small multipliers and without
    (
        &[(3 * LONG, 7), (-6 * LONG, 7)],
        Some((0, &[(0, 1), (1, -2)])),
    ),
    (&[(LONG, 3), (7, LONG - 2)], None),
];

#[test]
fn certificates_of_rays(rt: HostRuntime) -> Result<(), SampleError> {
    for case in &OF_RAYS {
        assert!(rt; has_certificate(rt.alloc(), true, case));
    }
    Ok(())
}

/// As many numbers as a model may have rows: halves and, in the last place, a third.
fn halves_and_a_third(alloc: Global) -> Result<Fracs, Memory> {
    let mut numbers = Vec::with_capacity(alloc, 1024)?;
    for _ in 0..1023 {
        numbers.push(frac(1, 2))?;
    }
    numbers.push(frac(1, 3))?;
    Ok(Fracs::from_vec(numbers))
}

/// The certificate of the halves and a third.
fn certificate_of_many(alloc: Global, is_ray: bool) -> Result<Option<Cert>, Memory> {
    let numbers = halves_and_a_third(alloc)?;
    certificate(alloc, is_ray, &numbers)
}

/// Whether a certificate has a divisor, and 1,024 multipliers of which the first is 3 in row 0 and the last is 2 in row 1,023.
fn has_many_multipliers(cert: &Cert, divisor: i64) -> bool {
    let y = cert.y.as_slice();
    cert.q == divisor
        && y.len() == 1024
        && y.first() == Some(&(0, 3))
        && y.last() == Some(&(1023, 2))
}

/// Whether the certificate of the halves and a third has a divisor and these multipliers.
fn has_divisor_of_many(alloc: Global, is_ray: bool, divisor: i64) -> bool {
    match certificate_of_many(alloc, is_ray) {
        Ok(Some(cert)) => has_many_multipliers(&cert, divisor),
        Ok(None) | Err(_) => false,
    }
}

#[test]
fn as_many_rows_as_a_model_may_have(rt: HostRuntime) -> Result<(), SampleError> {
    assert!(rt; has_divisor_of_many(rt.alloc(), false, 6));
    assert!(rt; has_divisor_of_many(rt.alloc(), true, 0));
    Ok(())
}

/// Whether the leaf bound of a certificate over a box is the expected one. Where one of them is not within the limits the answer is no.
fn is_bound(alloc: Global, model: &IntModel, cert: &Cert, area: &Area, bound: Bound) -> bool {
    let rows = u32::try_from(model.parts().rows.as_slice().len()).unwrap_or(0);
    if !cert_ok(cert, rows) || !is_box(area, model.parts().columns.as_slice().len()) {
        return false;
    }
    match scratch(alloc, model) {
        Ok(mut scratch) => leaf_bound(model, cert, area, &mut scratch) == bound,
        Err(_) => false,
    }
}

/// A box of one column.
fn area_of(alloc: Global, sides: (i64, i64)) -> Result<Area, AllocError> {
    Ok(Area::from_vec(Vec::from_slice(alloc, &[sides])?))
}

/// Whether the leaf bound of a certificate over a box of one column is the expected one.
fn is_bound_within(
    alloc: Global,
    model: &IntModel,
    cert: &Cert,
    sides: (i64, i64),
    bound: Bound,
) -> bool {
    match area_of(alloc, sides) {
        Ok(area) => is_bound(alloc, model, cert, &area, bound),
        Err(_) => false,
    }
}

/// Whether the leaf bound of a certificate of the row 2x <= 3 over a box of x is the expected one.
fn is_bound_of_half(alloc: Global, cert: &Cert, sides: (i64, i64), bound: Bound) -> bool {
    match half(alloc, 2) {
        Ok(model) => is_bound_within(alloc, &model, cert, sides, bound),
        Err(_) => false,
    }
}

/// Whether the certificate of a price of that row, or of its number in a ray, has the expected leaf bound over a box of x.
fn has_bound(
    alloc: Global,
    is_ray: bool,
    number: (i128, i128),
    sides: (i64, i64),
    bound: Bound,
) -> bool {
    match certificate_of(alloc, is_ray, &[number]) {
        Ok(Some(cert)) => is_bound_of_half(alloc, &cert, sides, bound),
        Ok(None) | Err(_) => false,
    }
}

#[test]
fn bounds_of_certificates(rt: HostRuntime) -> Result<(), SampleError> {
    let table = [
        // the price of the row bounds -x by -3/2, rounded up
        (false, (-1, 2), (0, 2), Bound::At(-1)),
        // no point from 2 on
        (true, (-5, 7), (2, 2), Bound::Infinite),
        (true, (-5, 7), (0, 2), Bound::At(-2)),
    ];
    for (is_ray, number, sides, bound) in table {
        assert!(rt; has_bound(rt.alloc(), is_ray, number, sides, bound));
    }
    Ok(())
}
