//! Tableaus that are worked by hand: scripts of pivots and flips, and what the tableau says in between.
ghost use Rattle.std.specs.Prelude.{◌≡◌, ◌<◌};

use crate::tests::programs::{Program, model_with};
use frac128::{Frac, Wide};
use ip_defs::Memory;
use ip_model::{IntModel, box_of};
use sample_models::SampleError;
use std::alloc::Global;
use std::marker::Brand;
use std::sync::ledger::{Blank, Ledger};
use tableau::{Rest, Steps, Tableau, start};

/// A numerator and a denominator.
type Pair = (i128, i128);

/// What a tableau says of a row and a variable: the entry, the row's basic variable, the variable's position, the row's value and the
/// variable's reduced cost.
type Seen = (Pair, u32, Rest, Pair, Pair);

/// The entries of three rows of six variables.
type Entries = [[Pair; 6]; 3];

/// A step on a tableau, or a question to it, and the answer. A row and a variable are asked for by number.
#[derive(Clone, Copy)]
enum Move {
    /// What is said of a row and a variable, none where the tableau has no such place.
    See(u32, u32, Option<Seen>),
    /// The ratio of a row and a variable at a side, none where it may not be asked.
    Ratio(u32, u32, Rest, Option<Pair>),
    /// A pivot whose basic variable leaves to a side, and whether it is within the width; none where it may not be made.
    Pivot(u32, u32, Rest, Option<bool>),
    /// A pivot as before, which changes entries, values and reduced costs exactly where it is within the width.
    ComparedPivot(u32, u32, Rest, bool),
    /// A flip, and whether it may be made.
    Flip(u32, bool),
    /// All entries.
    Entries(Entries),
}

/// The parts of a fraction, and 0, 0 for a wide answer.
fn parts(answer: Result<Frac, Wide>) -> Pair {
    match answer {
        Ok(value) => (value.num(), value.den()),
        Err(Wide) => (0, 0),
    }
}

/// What a tableau says of a row and a variable, none where it has no such place.
fn seen(tableau: &Tableau, row: u32, var: u32) -> Option<Seen> {
    if !tableau.has(row, var) {
        return None;
    }
    Some((
        parts(Ok(tableau.entry(row, var))),
        tableau.basic(row),
        tableau.rest(var),
        parts(tableau.value(row)),
        parts(tableau.price(var)),
    ))
}

/// The ratio of a row and a variable at a side, where it may be asked.
fn ratio(tableau: &Tableau, row: u32, var: u32, side: Rest) -> Option<Pair> {
    if !tableau.has(row, var) || side == Rest::Basic || side == Rest::Zero {
        return None;
    }
    let basic = tableau.basic(row);
    if tableau.rest(var) == Rest::Basic
        || tableau.entry(row, var).num() == 0
        || !tableau.can_rest(basic, side)
    {
        return None;
    }
    Some(parts(tableau.ratio(row, var, side)))
}

/// A pivot, where it may be made: whether it is not wide.
fn pivot<L: Ledger>(
    tableau: &mut Tableau,
    row: u32,
    var: u32,
    leaving: Rest,
    steps: &mut Steps<L>,
) -> Option<bool> {
    if !tableau.has(row, var) {
        return None;
    }
    let basic = tableau.basic(row);
    if tableau.rest(var) == Rest::Basic
        || tableau.entry(row, var).num() == 0
        || !tableau.can_rest(basic, leaving)
    {
        return None;
    }
    Some(tableau.pivot(row, var, leaving, steps).is_ok())
}

/// A flip, where it may be made.
fn flip<L: Ledger>(tableau: &mut Tableau, var: u32, steps: &mut Steps<L>) -> bool {
    if !tableau.has(0, var)
        || !tableau.can_rest(var, Rest::Low)
        || !tableau.can_rest(var, Rest::High)
    {
        return false;
    }
    let position = tableau.rest(var);
    if !tableau.can_rest(var, position) {
        return false;
    }
    tableau.flip(var, steps);
    true
}

/// The entries of the first three rows and six variables, 0 and 0 where the tableau has no such place.
fn entries(tableau: &Tableau) -> Entries {
    let mut all = [[(0, 0); 6]; 3];
    for row in 0..3u32 {
        for var in 0..6u32 {
            if tableau.has(row, var) {
                all[row as usize][var as usize] = parts(Ok(tableau.entry(row, var)));
            }
        }
    }
    all
}

/// What is said of two places: the second row and variable, and the third row and the fifth variable.
fn two_seen(tableau: &Tableau) -> (Option<Seen>, Option<Seen>) {
    (seen(tableau, 1, 1), seen(tableau, 2, 4))
}

/// Whether a pivot changes entries, values and reduced costs exactly where it is within the width, and is so as expected.
fn compares_pivot<L: Ledger>(
    tableau: &mut Tableau,
    row: u32,
    var: u32,
    leaving: Rest,
    fits: bool,
    steps: &mut Steps<L>,
) -> bool {
    let (old_entries, old_seen) = (entries(tableau), two_seen(tableau));
    pivot(tableau, row, var, leaving, steps) == Some(fits)
        && (entries(tableau) == old_entries) != fits
        && (two_seen(tableau) == old_seen) != fits
}

/// Takes a step or asks a question, and says whether the answer is the expected one.
fn is_so<L: Ledger>(tableau: &mut Tableau, step: Move, steps: &mut Steps<L>) -> bool {
    match step {
        Move::See(row, var, expected) => seen(tableau, row, var) == expected,
        Move::Ratio(row, var, side, expected) => ratio(tableau, row, var, side) == expected,
        Move::Pivot(row, var, side, fits) => pivot(tableau, row, var, side, steps) == fits,
        Move::ComparedPivot(row, var, side, fits) => compares_pivot(
            tableau, row, var, side, fits, steps,
        ),
        Move::Flip(var, flips) => flip(tableau, var, steps) == flips,
        Move::Entries(expected) => entries(tableau) == expected,
    }
}

/// Whether all of a script is so.
fn all_so<L: Ledger>(tableau: &mut Tableau, script: &[Move], steps: &mut Steps<L>) -> bool {
    for step in script {
        if !is_so(tableau, *step, steps) {
            return false;
        }
    }
    true
}

/// The tableau of a model over its own box.
fn started(alloc: Global, model: &IntModel) -> Result<Tableau, Memory> {
    let area = box_of(alloc, model)?;
    start(alloc, model, &area)
}

/// Whether all of a script is so from the tableau of a model on.
fn is_played_from_start<L: Ledger>(
    alloc: Global,
    model: &IntModel,
    script: &[Move],
    steps: &mut Steps<L>,
) -> bool {
    match started(alloc, model) {
        Ok(mut tableau) => all_so(&mut tableau, script, steps),
        Err(_) => false,
    }
}

/// Whether all of a script is so for a model, with a counter of its own.
fn is_played_counted<L: Ledger>(
    alloc: Global,
    model: &IntModel,
    script: &[Move],
    blank: Blank,
) -> bool
    requires name { blank.name ≡ L.name }
    requires parts { blank.parts ≡ L.parts }
    requires some { 0 < L.parts }
{
    let mut steps = Steps::<L>::new(blank);
    is_played_from_start(alloc, model, script, &mut steps)
}

/// Whether all of a script is so for a program.
fn is_played(alloc: Global, program: Program<'_>, script: &[Move]) -> bool {
    match model_with(alloc, 0, program) {
        Ok(model) => is_played_counted::<Brand>(alloc, &model, script, Blank::new(1)),
        Err(_) => false,
    }
}

/// Minimize -x subject to 2x <= 3, with x from 0 to 4.
const ONE_ROW: Program = Program {
    columns: &[(-1, 0, 4)],
    rows: &[(&[(0, 2)], None, Some(3))],
};

/// The row of one column, pivoted to and fro.
#[test]
fn one_row_to_and_fro(rt: HostRuntime) -> Result<(), SampleError> {
    let script = [
        Move::See(0, 0, Some(((-2, 1), 1, Rest::Low, (0, 1), (-1, 1)))),
        Move::See(0, 1, Some(((1, 1), 1, Rest::Basic, (0, 1), (0, 1)))),
        Move::Ratio(0, 0, Rest::High, Some((3, 2))),
        Move::Ratio(0, 0, Rest::Low, None),
        Move::Pivot(0, 0, Rest::Low, None),
        Move::Pivot(0, 0, Rest::High, Some(true)),
        Move::See(0, 1, Some(((-1, 2), 0, Rest::High, (3, 2), (-1, 2)))),
        Move::See(0, 0, Some(((1, 1), 0, Rest::Basic, (3, 2), (0, 1)))),
        Move::Pivot(0, 1, Rest::High, Some(true)),
        Move::See(0, 0, Some(((-2, 1), 1, Rest::High, (8, 1), (-1, 1)))),
        Move::See(1, 0, None),
        Move::See(0, 2, None),
    ];
    assert!(rt; is_played(rt.alloc(), ONE_ROW, &script));
    Ok(())
}

/// Minimize -5a - 4b - 3c subject to 2a + 3b + c <= 5, -3 <= 4a + b + 2c <= 11 and a row 3a + 4b + 2c without sides.
const THREE_ROWS: Program = Program {
    columns: &[(-5, 0, 10), (-4, 1, 10), (-3, -2, 7)],
    rows: &[
        (&[(0, 2), (1, 3), (2, 1)], None, Some(5)),
        (&[(0, 4), (1, 1), (2, 2)], Some(-3), Some(11)),
        (&[(0, 3), (1, 4), (2, 2)], None, None),
    ],
};

/// Pivots and a flip of three rows.
#[test]
fn three_rows_in_steps(rt: HostRuntime) -> Result<(), SampleError> {
    let last = [
        [(1, 1), (0, 1), (1, 2), (1, 10), (-3, 10), (0, 1)],
        [(0, 1), (1, 1), (0, 1), (-2, 5), (1, 5), (0, 1)],
        [(0, 1), (0, 1), (-1, 2), (-13, 10), (-1, 10), (1, 1)],
    ];
    let script = [
        Move::See(1, 1, Some(((-1, 1), 4, Rest::Low, (-3, 1), (-4, 1)))),
        Move::Pivot(0, 0, Rest::High, Some(true)),
        Move::See(2, 1, Some(((1, 2), 5, Rest::Low, (6, 1), (7, 2)))),
        Move::Flip(1, true),
        Move::Flip(0, false),
        Move::See(0, 1, Some(((3, 2), 0, Rest::High, (-23, 2), (7, 2)))),
        // the slack of the row without sides leaves to 0, and to no side
        Move::Pivot(2, 2, Rest::Low, None),
        Move::Pivot(2, 2, Rest::Zero, Some(true)),
        Move::See(2, 5, Some(((-2, 1), 2, Rest::Zero, (-5, 1), (-1, 1)))),
        Move::Pivot(1, 1, Rest::Low, Some(true)),
        Move::See(2, 3, Some(((13, 5), 2, Rest::High, (-62, 5), (1, 5)))),
        Move::Pivot(2, 5, Rest::High, Some(true)),
        Move::Ratio(0, 3, Rest::Low, Some((-49, 1))),
        Move::Entries(last),
    ];
    assert!(rt; is_played(rt.alloc(), THREE_ROWS, &script));
    Ok(())
}

/// Coefficients of 32 bits.
const FIRST: &[(u32, i64)] = &[(0, 2_328_301_503), (1, -1_102_351_748), (2, -3_300_186_631)];

const SECOND: &[(u32, i64)] = &[(0, 3_279_809_026), (1, -1_248_415_223), (2, 3_072_532_668)];

/// Whether a second pivot of three rows, with this coefficient in the last row, is within the width as expected.
fn long_rows_pivot(alloc: Global, chosen: i64, fits: bool) -> bool {
    let third = [(0, -2_955_669_566), (1, chosen), (2, 2_820_594_775)];
    let rows = [
        (FIRST, Some(0), Some(1)),
        (SECOND, Some(0), Some(1)),
        (&third[..], Some(0), Some(1)),
    ];
    let program = Program {
        columns: &[(1, 0, 1), (1, 0, 1), (1, 0, 1)],
        rows: &rows,
    };
    let script = [
        Move::Pivot(0, 0, Rest::Low, Some(true)),
        Move::ComparedPivot(1, 1, Rest::Low, fits),
    ];
    is_played(alloc, program, &script)
}

/// A pivot that is wide by one bit, and one that is not.
#[test]
fn wide_pivot(rt: HostRuntime) -> Result<(), SampleError> {
    for (chosen, fits) in [(-2_693_312_722, false), (-2_687_021_266, true)] {
        assert!(rt; long_rows_pivot(rt.alloc(), chosen, fits));
    }
    Ok(())
}
