//! Linear programs with known answers.
ghost use Rattle.std.specs.Prelude.{◌≡◌, ◌<◌};

use crate::tests::programs::{Program, are_fractions, model_with};
use ip_defs::Area;
use ip_model::{IntModel, box_of, crossed, has_empty_column};
use sample_models::SampleError;
use simplex_exact::{LpAnswer, Steps, solve_lp};
use std::alloc::Global;
use std::marker::Brand;
use std::sync::ledger::{Blank, Ledger};

/// An answer that is expected, its numbers as numerators and denominators.
#[derive(Clone, Copy)]
enum Expected<'a> {
    Best {
        point: &'a [(i128, i128)],
        prices: &'a [(i128, i128)],
    },
    Empty {
        ray: &'a [(i128, i128)],
    },
    Stopped,
    Wide,
    NotAsked,
}

/// Whether an answer is the expected one.
fn is_expected(answer: &LpAnswer, expected: Expected<'_>) -> bool {
    match answer {
        LpAnswer::Best { point, prices } => match expected {
            Expected::Best {
                point: vertex,
                prices: costs,
            } => are_fractions(point, vertex) && are_fractions(prices, costs),
            _ => false,
        },
        LpAnswer::Empty { ray } => match expected {
            Expected::Empty { ray: numbers } => are_fractions(ray, numbers),
            _ => false,
        },
        LpAnswer::Stopped => matches!(&expected, Expected::Stopped),
        LpAnswer::Wide => matches!(&expected, Expected::Wide),
    }
}

/// A number of steps, and the answer that is expected within them.
#[derive(Clone, Copy)]
struct Case<'a> {
    pivots: u32,
    expected: Expected<'a>,
}

/// Whether the answer over a box is the expected one. Nothing is asked where a column is empty.
fn answers<L: Ledger>(
    alloc: Global,
    model: &IntModel,
    area: &Area,
    case: Case<'_>,
    steps: &mut Steps<L>,
) -> bool {
    let is_whole = area.as_slice().len() == model.parts().columns.as_slice().len();
    if !is_whole || has_empty_column(area.as_slice()) || crossed(model).is_some() {
        return matches!(&case.expected, Expected::NotAsked);
    }
    match solve_lp(alloc, model, area, case.pivots, steps) {
        Ok(answer) => is_expected(&answer, case.expected),
        Err(_) => false,
    }
}

/// Whether the answer over the model's own box is the expected one.
fn answers_over_box<L: Ledger>(
    alloc: Global,
    model: &IntModel,
    case: Case<'_>,
    steps: &mut Steps<L>,
) -> bool {
    match box_of(alloc, model) {
        Ok(area) => answers(alloc, model, &area, case, steps),
        Err(_) => false,
    }
}

/// Whether the answer over the model's own box is the expected one, with a counter of its own.
fn answers_counted<L: Ledger>(alloc: Global, model: &IntModel, case: Case<'_>, blank: Blank) -> bool
    requires name { blank.name ≡ L.name }
    requires parts { blank.parts ≡ L.parts }
    requires some { 0 < L.parts }
{
    let mut steps = Steps::<L>::new(blank);
    answers_over_box(alloc, model, case, &mut steps)
}

/// Whether a program has the expected answer within a number of steps.
fn has_answer(alloc: Global, program: Program<'_>, pivots: u32, expected: Expected<'_>) -> bool {
    match model_with(alloc, 7, program) {
        Ok(model) => {
            answers_counted::<Brand>(alloc, &model, Case { pivots, expected }, Blank::new(1))
        }
        Err(_) => false,
    }
}

/// Minimize -x subject to 2x <= 3, with x from 0 to 2.
const ONE_ROW: Program = Program {
    columns: &[(-1, 0, 2)],
    rows: &[(&[(0, 2)], None, Some(3))],
};

/// Minimize -x subject to x <= 5, with x from 0 to 1.
const LOOSE_ROW: Program = Program {
    columns: &[(-1, 0, 1)],
    rows: &[(&[(0, 1)], None, Some(5))],
};

/// Minimize -x with x from 0 to 4, and a row of x without sides.
const FREE_ROW: Program = Program {
    columns: &[(-1, 0, 4)],
    rows: &[(&[(0, 1)], None, None)],
};

/// The same with x from 0 to -1.
const EMPTY_COLUMN: Program = Program {
    columns: &[(-1, 0, -1)],
    rows: &[(&[(0, 1)], None, None)],
};

/// A coefficient of 1 in two columns.
const SUM: &[(u32, i64)] = &[(0, 1), (1, 1)];

/// Minimize x + y subject to x + y >= 3, with both from 0 to 1.
const SMALL_SUM: Program = Program {
    columns: &[(1, 0, 1), (1, 0, 1)],
    rows: &[(SUM, Some(3), None), (SUM, None, None)],
};

/// Minimize x + y subject to x + y >= 3 and x + y <= 2, with both from 0 to 4.
const TWO_SUMS: Program = Program {
    columns: &[(1, 0, 4), (1, 0, 4)],
    rows: &[(SUM, Some(3), None), (SUM, None, Some(2))],
};

/// Minimize x + y subject to x + y >= 3 and x + y <= 3, with both from 0 to 2.
const EQUAL_SUMS: Program = Program {
    columns: &[(1, 0, 2), (1, 0, 2)],
    rows: &[(SUM, Some(3), None), (SUM, None, Some(3))],
};

/// Minimize -x - y subject to 3x + 2y <= 11, with x fixed at 2 and y from 0 to 5.
const FIXED_COLUMN: Program = Program {
    columns: &[(-1, 2, 2), (-1, 0, 5)],
    rows: &[(&[(0, 3), (1, 2)], None, Some(11))],
};

/// Minimize 2x + 3y subject to x + y = 4 and x - y <= 7, with x from 0 to 10 and y from -5 to 5.
const EQUATION: Program = Program {
    columns: &[(2, 0, 10), (3, -5, 5)],
    rows: &[(SUM, Some(4), Some(4)), (&[(0, 1), (1, -1)], None, Some(7))],
};

/// The program on which the simplex cycles by the most negative reduced cost (Beale, 1955), in whole numbers.
const CYCLING: Program = Program {
    columns: &[(-75, 0, 10), (15000, 0, 10), (-2, 0, 10), (600, 0, 10)],
    rows: &[
        (&[(0, 25), (1, -6000), (2, -4), (3, 900)], None, Some(0)),
        (&[(0, 25), (1, -4500), (2, -1), (3, 150)], None, Some(0)),
        (&[(2, 1)], None, Some(1)),
    ],
};

/// Four equations with coefficients of 40 bits: after three pivots the numbers of the tableau have 160 bits.
const LONG_EQUATIONS: Program = Program {
    columns: &[
        (848_841, -16_777_216, 16_777_216),
        (904_501, -16_777_216, 16_777_216),
        (846_546, -16_777_216, 16_777_216),
        (-252_070, -16_777_216, 16_777_216),
    ],
    rows: &[
        (
            &[
                (0, 994_336_076_226),
                (1, -280_062_031_789),
                (2, 863_692_683_667),
                (3, -475_438_271_359),
            ],
            Some(1),
            Some(1),
        ),
        (
            &[
                (0, 644_168_615_732),
                (1, 893_201_833_400),
                (2, -822_364_340_554),
                (3, -944_637_035_053),
            ],
            Some(1),
            Some(1),
        ),
        (
            &[
                (0, 337_000_032_430),
                (1, -236_899_971_603),
                (2, -70_784_822_944),
                (3, 196_023_560_269),
            ],
            Some(1),
            Some(1),
        ),
        (
            &[
                (0, -1_080_185_249_239),
                (1, -723_004_273_937),
                (2, 688_389_467_932),
                (3, -730_830_709_286),
            ],
            Some(1),
            Some(1),
        ),
    ],
};

#[test]
fn one_row_within_pivots(rt: HostRuntime) -> Result<(), SampleError> {
    let best = Expected::Best {
        point: &[(3, 2)],
        prices: &[(-1, 2)],
    };
    for (pivots, expected) in [(0, Expected::Stopped), (1, best), (9, best)] {
        assert!(&rt; has_answer(rt.alloc(), ONE_ROW, pivots, expected));
    }
    Ok(())
}

#[test]
fn a_flip_is_a_step(rt: HostRuntime) -> Result<(), SampleError> {
    let at_one = Expected::Best {
        point: &[(1, 1)],
        prices: &[(0, 1)],
    };
    let at_four = Expected::Best {
        point: &[(4, 1)],
        prices: &[(0, 1)],
    };
    let cases = [
        (LOOSE_ROW, 0, Expected::Stopped),
        (LOOSE_ROW, 1, at_one),
        (FREE_ROW, 1, at_four),
        (EMPTY_COLUMN, 1, Expected::NotAsked),
    ];
    for (program, pivots, expected) in cases {
        assert!(&rt; has_answer(rt.alloc(), program, pivots, expected));
    }
    Ok(())
}

#[test]
fn rows_of_a_sum(rt: HostRuntime) -> Result<(), SampleError> {
    let one_row = Expected::Empty {
        ray: &[(1, 1), (0, 1)],
    };
    let two_rows = Expected::Empty {
        ray: &[(1, 1), (-1, 1)],
    };
    let best = Expected::Best {
        point: &[(2, 1), (1, 1)],
        prices: &[(1, 1), (0, 1)],
    };
    let cases = [
        (SMALL_SUM, one_row),
        (TWO_SUMS, two_rows),
        (EQUAL_SUMS, best),
    ];
    for (program, expected) in cases {
        assert!(&rt; has_answer(rt.alloc(), program, 9, expected));
    }
    Ok(())
}

#[test]
fn sides_of_columns_and_rows(rt: HostRuntime) -> Result<(), SampleError> {
    let fixed = Expected::Best {
        point: &[(2, 1), (5, 2)],
        prices: &[(-1, 2)],
    };
    let equal = Expected::Best {
        point: &[(11, 2), (-3, 2)],
        prices: &[(5, 2), (-1, 2)],
    };
    for (program, expected) in [(FIXED_COLUMN, fixed), (EQUATION, equal)] {
        assert!(&rt; has_answer(rt.alloc(), program, 9, expected));
    }
    Ok(())
}

#[test]
fn no_cycle(rt: HostRuntime) -> Result<(), SampleError> {
    let best = Expected::Best {
        point: &[(1, 25), (0, 1), (1, 1), (0, 1)],
        prices: &[(0, 1), (-3, 1), (-5, 1)],
    };
    assert!(&rt; has_answer(rt.alloc(), CYCLING, 100, best));
    Ok(())
}

#[test]
fn a_wide_tableau(rt: HostRuntime) -> Result<(), SampleError> {
    for (pivots, expected) in [(1, Expected::Stopped), (9, Expected::Wide)] {
        assert!(&rt; has_answer(rt.alloc(), LONG_EQUATIONS, pivots, expected));
    }
    Ok(())
}
