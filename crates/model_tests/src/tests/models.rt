//! Points, halves of boxes, shapes, and models at their limits.
use ip_defs::{Area, Breach, Column, Memory, Name, Parts, Point, Row, What};
use ip_model::{
    IntModel, allowance, box_of, cost, crossed, cut_above, cut_below, first_breach, make, set_box,
    well_shaped, width_sum,
};
use sample_models::{SampleError, column, model, parts, row, three_rows};
use std::alloc::{Alloc, Global};

/// The breach and the cost of a point that has one coordinate for each column.
fn judged_point(model: &IntModel, point: &Point) -> Option<(Option<Breach>, i128)> {
    if point.as_slice().len() != model.parts().columns.as_slice().len() {
        return None;
    }
    Some((first_breach(model, point), cost(model, point)))
}

/// The breach and the cost at coordinates, one for each column of a model. None where memory runs out.
fn judged(
    alloc: Global,
    model: Result<IntModel, SampleError>,
    coordinates: &[i64],
) -> Option<(Option<Breach>, i128)> {
    match (model, Vec::from_slice(alloc, coordinates)) {
        (Ok(model), Ok(list)) => judged_point(&model, &Point::from_vec(list)),
        _ => None,
    }
}

/// Coordinates, their first breach and their cost.
const POINTS: [([i64; 3], Option<Breach>, i128); 7] = [
    ([2, 0, 1], None, -13),
    ([2, 1, 1], Some(Breach::Row(0)), -17),
    ([-1, 0, 0], Some(Breach::Column(0)), 5),
    ([0, 0, 11], Some(Breach::Column(2)), -33),
    ([0, 1, 2], None, -10),
    ([0, 0, 5], Some(Breach::Row(2)), -15),
    (
        [i64::MAX; 3],
        Some(Breach::Column(0)),
        -110_680_464_442_257_309_684,
    ),
];

#[test]
fn points_of_three_rows(rt: HostRuntime) {
    let alloc = rt.alloc();
    for (coordinates, breach, cost) in &POINTS {
        let got = judged(alloc, three_rows(alloc), coordinates.as_slice());
        assert!(rt; got == Some((*breach, *cost)));
    }
}

/// A column of a box after a cut below or above, and whether it is not empty.
fn half(area: &mut Area, j: usize, cut: i16, is_upper: bool) -> Option<(bool, (i64, i64))> {
    if area.as_slice().len() <= j {
        return None;
    }
    let open = if is_upper {
        cut_above(area, j, i64::from(cut))
    } else {
        cut_below(area, j, i64::from(cut))
    };
    area.as_slice().get(j).map(|side| (open, *side))
}

/// Whether a box that is set to the bounds of three columns has them.
fn is_set_again(model: &IntModel, area: &mut Area) -> bool {
    if area.as_slice().len() == model.parts().columns.as_slice().len() {
        set_box(model, area);
    }
    area.as_slice() == [(0, 10); 3].as_slice()
}

/// The last of three columns after a cut of the whole box, none where the box is not set again after it.
fn half_of_box(
    alloc: Global,
    model: &IntModel,
    cut: i16,
    is_upper: bool,
) -> Option<(bool, (i64, i64))> {
    match box_of(alloc, model) {
        Ok(mut area) => {
            let half = half(&mut area, 2, cut, is_upper);
            if is_set_again(model, &mut area) {
                half
            } else {
                None
            }
        }
        Err(_) => None,
    }
}

/// As `half_of_box`, for the model of three rows.
fn half_of_three_rows(alloc: Global, cut: i16, is_upper: bool) -> Option<(bool, (i64, i64))> {
    match three_rows(alloc) {
        Ok(model) => half_of_box(alloc, &model, cut, is_upper),
        Err(_) => None,
    }
}

/// A cut of the last column, whether its upper half is kept, whether the half is not empty, and its bounds.
const HALVES: [(i16, bool, (bool, (i64, i64))); 4] = [
    (4, false, (true, (0, 4))),
    (4, true, (true, (5, 10))),
    (10, true, (false, (11, 10))),
    (-1, false, (false, (0, -1))),
];

#[test]
fn halves_of_a_box(rt: HostRuntime) {
    for (cut, is_upper, want) in &HALVES {
        assert!(rt; half_of_three_rows(rt.alloc(), *cut, *is_upper) == Some(*want));
    }
}

/// The sum of the widths of the columns, and the first crossed row.
fn width_and_crossed(
    model: Result<IntModel, SampleError>,
) -> Result<(u64, Option<u32>), SampleError> {
    let model = model?;
    Ok((width_sum(&model), crossed(&model)))
}

/// The allowance of three rows.
fn allowance_of_three_rows(alloc: Global, nodes: u32) -> Result<u32, SampleError> {
    Ok(allowance(&three_rows(alloc)?, nodes))
}

/// Two columns.
fn two_columns(alloc: Global, first: Column, second: Column) -> Result<Vec<Column>, Memory> {
    Ok(vec![in alloc; first, second]?)
}

/// A row without coefficients that has to be 2, and one from 2 to 1.
fn crossed_rows(alloc: Global) -> Result<Vec<Row>, Memory> {
    let mut rows = Vec::new(alloc);
    for high in [2, 1] {
        rows.push(row(alloc, &[], Some(2), Some(high))?)?;
    }
    Ok(rows)
}

/// An empty column, and a crossed row after one that is not.
fn no_point(alloc: Global) -> Result<IntModel, SampleError> {
    let columns = vec![in alloc; column(alloc, 0, 0, 7), column(alloc, 0, 5, 3)]?;
    model(alloc, columns, crossed_rows(alloc)?)
}

#[test]
fn widths_crossed_rows_and_allowances(rt: HostRuntime) {
    let alloc = rt.alloc();
    assert!(rt; width_and_crossed(three_rows(alloc)) == Ok((30, None)));
    assert!(rt; allowance_of_three_rows(alloc, 3_000_000) == Ok(2_396_745));
    assert!(rt; allowance_of_three_rows(alloc, 2_000_000) == Ok(2_000_000));
    assert!(rt; width_and_crossed(no_point(alloc)) == Ok((0, Some(1))));
    let breach = Some(Breach::Column(1));
    assert!(rt; judged(alloc, no_point(alloc), &[0, 4]) == Some((breach, 0)));
}

/// Parts of a constant, columns and rows, where memory sufficed for both lists.
fn parts_of(
    alloc: Global,
    constant: i64,
    columns: Result<Vec<Column>, Memory>,
    rows: Result<Vec<Row>, Memory>,
) -> Result<Parts, Memory> {
    match (columns, rows) {
        (Ok(columns), Ok(rows)) => Ok(parts(alloc, constant, columns, rows)),
        _ => Err(Memory),
    }
}

/// One row with decimals and coefficients.
fn one_row(alloc: Global, decimals: u8, coefs: &[(u32, i64)]) -> Result<Vec<Row>, Memory> {
    let mut only = row(alloc, coefs, None, None)?;
    only.decimals = decimals;
    Ok(vec![in alloc; only]?)
}

/// Whether two columns and one row with decimals and coefficients are well shaped.
fn is_shaped(alloc: Global, decimals: u8, coefs: &[(u32, i64)]) -> Result<bool, Memory> {
    let columns = two_columns(alloc, column(alloc, 0, 0, 1), column(alloc, 0, 0, 1));
    let rows = one_row(alloc, decimals, coefs);
    Ok(well_shaped(&parts_of(alloc, 0, columns, rows)?))
}

/// Decimals and coefficients of a row, and whether it is well shaped over two columns.
const SHAPES: [(u8, [(u32, i64); 2], bool); 6] = [
    (9, [(0, 1), (1, -1)], true),
    (10, [(0, 1), (1, -1)], false),
    (0, [(1, 1), (0, 1)], false),
    (0, [(1, 1), (1, 1)], false),
    (0, [(0, 1), (2, 1)], false),
    (0, [(0, 1), (1, 0)], false),
];

#[test]
fn shapes_of_a_row(rt: HostRuntime) {
    for (decimals, coefs, want) in &SHAPES {
        assert!(rt; is_shaped(rt.alloc(), *decimals, coefs.as_slice()) == Ok(*want));
    }
}

/// The limit that parts exceed and its index, none where they exceed none or are not well shaped.
fn exceeded(parts: Parts) -> Option<(What, u32)> {
    if !well_shaped(&parts) {
        return None;
    }
    match make(parts) {
        Ok(_) => None,
        Err((_, limit)) => Some((limit.what, limit.index)),
    }
}

/// The limit that parts exceed and its index, where memory sufficed for the parts.
fn limit_of(parts: Result<Parts, Memory>) -> Result<Option<(What, u32)>, Memory> {
    Ok(exceeded(parts?))
}

/// A column with a name of this length.
fn named(alloc: Global, length: usize, cost: i64, lo: i64, hi: i64) -> Result<Column, Memory> {
    Ok(Column {
        name: Name::new("n".repeat(alloc, length)?),
        cost,
        lo,
        hi,
    })
}

/// A row without coefficients and sides, and one with a coefficient in the second column and a low side.
fn second_row(alloc: Global, coefficient: i64, low: i64) -> Result<Vec<Row>, Memory> {
    let mut rows = Vec::new(alloc);
    rows.push(row(alloc, &[], None, None)?)?;
    rows.push(row(alloc, &[(1, coefficient)], Some(low), None)?)?;
    Ok(rows)
}

/// A column of zeros and another column.
fn second_column(alloc: Global, second: Result<Column, Memory>) -> Result<Vec<Column>, Memory> {
    two_columns(alloc, column(alloc, 0, 0, 0), second?)
}

/// A second column and a second row of these numbers: the length of the column's name, its cost and bounds, the coefficient, the low side
/// of the row; and the constant.
fn with_numbers(alloc: Global, length: usize, numbers: [i64; 6]) -> Result<Parts, Memory> {
    let [cost, lo, hi, coefficient, low, constant] = numbers;
    let columns = second_column(alloc, named(alloc, length, cost, lo, hi));
    let rows = second_row(alloc, coefficient, low);
    parts_of(alloc, constant, columns, rows)
}

/// 2^24, 2^40 and 2^62.
const BOUND: i64 = 1 << 24;

const COST: i64 = 1 << 40;

const SIDE: i64 = 1 << 62;

/// A length and numbers as `with_numbers` takes them, and the limit that is exceeded.
const NUMBERS: [(usize, [i64; 6], Option<(What, u32)>); 8] = [
    (255, [COST, -BOUND, BOUND, -COST, -SIDE, SIDE], None),
    (256, [COST + 1, 0, 0, 1, 0, 0], Some((What::Name, 1))),
    (0, [COST + 1, BOUND + 1, 0, 1, 0, 0], Some((What::Cost, 1))),
    (
        0,
        [COST, -BOUND - 1, BOUND + 1, 1, 0, 0],
        Some((What::Lower, 1)),
    ),
    (
        0,
        [COST, BOUND, BOUND + 1, COST + 1, 0, 0],
        Some((What::Upper, 1)),
    ),
    (0, [0, 0, 0, -COST - 1, SIDE + 1, 0], Some((What::Coef, 1))),
    (0, [0, 0, 0, 1, -SIDE - 1, SIDE + 1], Some((What::Side, 1))),
    (0, [0, 0, 0, 1, SIDE, -SIDE - 1], Some((What::Constant, 0))),
];

#[test]
fn numbers_at_their_limits(rt: HostRuntime) {
    for (length, numbers, want) in &NUMBERS {
        let got = limit_of(with_numbers(rt.alloc(), *length, *numbers));
        assert!(rt; got == Ok(*want));
    }
}

/// Equal columns.
fn equal_columns(alloc: Global, count: u32) -> Result<Vec<Column>, Memory> {
    let mut columns = Vec::new(alloc);
    for _ in 0..count {
        columns.push(column(alloc, 1, 0, 1))?;
    }
    Ok(columns)
}

/// A row that has the coefficient 1 in the first columns.
fn row_of_ones(alloc: Global, count: u32) -> Result<Row, Memory> {
    let mut coefs = Vec::new(alloc);
    for j in 0..count {
        coefs.push((j, 1))?;
    }
    row(alloc, coefs.as_slice(), Some(0), None)
}

/// Rows of which the first `longer` have one coefficient more than the others.
fn rows_of_ones(
    alloc: Global,
    row_count: u32,
    coefficients: u32,
    longer: u32,
) -> Result<Vec<Row>, Memory> {
    let mut rows = Vec::new(alloc);
    for i in 0..row_count {
        let more = u32::from(i < longer);
        rows.push(row_of_ones(alloc, coefficients.saturating_add(more))?)?;
    }
    Ok(rows)
}

/// Counts of columns, of rows, of coefficients in each row and of rows with one more, and the limit that is exceeded.
const COUNTS: [(u32, u32, u32, u32, Option<(What, u32)>); 4] = [
    // 1,024 * 195 + 320 is 200,000
    (4096, 1024, 195, 320, None),
    (4096, 1024, 195, 321, Some((What::Entries, 0))),
    (4097, 1025, 1, 0, Some((What::Columns, 0))),
    (4096, 1025, 1, 0, Some((What::Rows, 0))),
];

#[test]
fn counts_at_their_limits(rt: HostRuntime) {
    let alloc = rt.alloc();
    for (columns, rows, coefficients, longer, want) in &COUNTS {
        let columns = equal_columns(alloc, *columns);
        let rows = rows_of_ones(alloc, *rows, *coefficients, *longer);
        assert!(rt; limit_of(parts_of(alloc, 0, columns, rows)) == Ok(*want));
    }
}
