//! Edits of a small model, worked rows among them: what no clause says is that memory suffices.
ghost use Rattle.std.specs.Prelude.{IfOk};
ghost use Rattle.decimals.specs.Decimals.{IsBelowLarge};
ghost use Rattle.perturbation.specs.Edits.{written};

use crate::models::{becomes, is_refused, model, name};
use decimals::read_number;
use ip_defs::Memory;
use ip_model::{IntModel, Place};
use mps_defs::Number;
use perturbation::{Change, Datum, Edit, EditError, PlaceError, apply, locate};
use sample_models::SampleError;
use std::alloc::{Alloc, Global};

/// A number of the model, or one of a column or a side that it lacks.
#[derive(Clone, Copy)]
enum Target {
    CostOfX,
    CostOfZ,
    UpperOfY,
    LowOfR,
    HighOfR,
    CoefOfX,
    CoefOfZ,
}

/// An edit as written: whether its number is added, and the text of the number.
#[derive(Clone, Copy)]
struct Line<'a> {
    target: Target,
    adds: bool,
    text: &'a str,
}

/// The coefficient of a column in the row.
fn coef_of(alloc: Global, column: &str) -> Result<Datum, Memory> {
    Ok(Datum::Coef {
        row: name(alloc, "r")?,
        column: name(alloc, column)?,
    })
}

/// The datum of a target.
fn datum(alloc: Global, target: Target) -> Result<Datum, Memory> {
    match target {
        Target::CostOfX => Ok(Datum::Cost {
            column: name(alloc, "x")?,
        }),
        Target::CostOfZ => Ok(Datum::Cost {
            column: name(alloc, "z")?,
        }),
        Target::UpperOfY => Ok(Datum::Upper {
            column: name(alloc, "y")?,
        }),
        Target::LowOfR => Ok(Datum::Low {
            row: name(alloc, "r")?,
        }),
        Target::HighOfR => Ok(Datum::High {
            row: name(alloc, "r")?,
        }),
        Target::CoefOfX => coef_of(alloc, "x"),
        Target::CoefOfZ => coef_of(alloc, "z"),
    }
}

/// A number in place of the old one, or added to it.
fn change(adds: bool, number: Number) -> Change
    requires { IsBelowLarge number }
    ensures { IsBelowLarge (written result) }
{
    if adds {
        Change::Add(number)
    } else {
        Change::Set(number)
    }
}

/// The edit of a line. No test expects the answer for a text that is no number.
fn edit(alloc: Global, line: Line<'_>) -> Result<Edit, Memory>
    ensures { IfOk result (λ e. IsBelowLarge (written e.change)) }
{
    match read_number(line.text) {
        Some(number) => Ok(Edit {
            datum: datum(alloc, line.target)?,
            change: change(line.adds, number),
        }),
        None => Err(Memory),
    }
}

/// The model after two edits.
fn edited(
    alloc: Global,
    model: &IntModel,
    first: Line<'_>,
    second: Line<'_>,
) -> Result<IntModel, EditError> {
    apply(alloc, model, &[edit(alloc, first)?, edit(alloc, second)?])
}

fn set(target: Target, text: &str) -> Line<'_> {
    Line {
        target,
        adds: false,
        text,
    }
}

fn add(target: Target, text: &str) -> Line<'_> {
    Line {
        target,
        adds: true,
        text,
    }
}

/// An edit that changes nothing.
const NONE: Line<'_> = Line {
    target: Target::HighOfR,
    adds: true,
    text: "0",
};

const OFF_GRID: EditError = EditError::OffGrid { edit: 1 };

const LIMIT: EditError = EditError::Limit { edit: 1 };

const UNKNOWN: EditError = EditError::UnknownName { edit: 1 };

const NO_SIDE: EditError = EditError::NoSide { edit: 1 };

#[test]
fn refused_edits(rt: HostRuntime) -> Result<(), SampleError> {
    let alloc = rt.alloc();
    let model = model(alloc, 0, 0)?;
    let large = set(Target::CostOfX, "1e400");
    for (first, second, refusal) in [
        (add(Target::CostOfX, "0.5"), NONE, OFF_GRID),
        (set(Target::CostOfX, "1e-30"), NONE, OFF_GRID),
        (
            set(Target::HighOfR, "9000000000000000000.5"),
            NONE,
            OFF_GRID,
        ),
        (large, NONE, LIMIT),
        (large, set(Target::CostOfZ, "1"), LIMIT),
        (add(Target::UpperOfY, "16777213"), NONE, LIMIT),
        (set(Target::CostOfZ, "1e400"), NONE, UNKNOWN),
        (set(Target::LowOfR, "0.5"), NONE, NO_SIDE),
        (set(Target::LowOfR, "1e400"), NONE, NO_SIDE),
        (NONE, large, EditError::Limit { edit: 2 }),
    ] {
        assert!(rt; is_refused(edited(alloc, &model, first, second), refusal));
    }
    Ok(())
}

/// The numbers of the model but for the one at an index.
fn numbers(index: usize, number: i64) -> [i64; 13] {
    let mut numbers = [7, 2, 0, 4, -1, 0, 4, 99, 3, 0, 2, 1, -2];
    if index < 13 {
        numbers[index] = number;
    }
    numbers
}

#[test]
fn edited_models(rt: HostRuntime) -> Result<(), SampleError> {
    let alloc = rt.alloc();
    let raise = add(Target::HighOfR, "2");
    let remove = set(Target::CoefOfX, "0");
    let put = add(Target::CoefOfX, "3");
    let widen = add(Target::UpperOfY, "16777212");
    let dearer = add(Target::CostOfX, "0.5");
    let lower = set(Target::HighOfR, "-7.1");
    for (costs, row, first, second, index, number) in [
        (0, 0, raise, raise, 8, 7),
        (0, 0, remove, put, 10, 3),
        (0, 0, widen, NONE, 6, 16777216),
        (1, 2, dearer, NONE, 1, 7),
        (1, 2, NONE, lower, 8, -710),
    ] {
        let edited = edited(alloc, &model(alloc, costs, row)?, first, second);
        assert!(rt; becomes(alloc, edited, numbers(index, number).as_slice()));
    }
    let without = [7, 2, 0, 4, -1, 0, 4, 99, 3, 1, -2];
    let removed = edited(alloc, &model(alloc, 0, 0)?, remove, NONE);
    assert!(rt; becomes(alloc, removed, without.as_slice()));
    let half = add(Target::UpperOfY, "0.5");
    assert!(rt; is_refused(edited(alloc, &model(alloc, 1, 2)?, half, NONE), OFF_GRID));
    Ok(())
}

/// Whether a target is located there.
fn is_located(
    alloc: Global,
    model: &IntModel,
    target: Target,
    want: Result<Place, PlaceError>,
) -> bool {
    match datum(alloc, target) {
        Ok(datum) => locate(model, &datum) == want,
        Err(_) => false,
    }
}

#[test]
fn places_are_located(rt: HostRuntime) -> Result<(), SampleError> {
    let alloc = rt.alloc();
    let model = model(alloc, 0, 0)?;
    assert!(rt; is_located(alloc, &model, Target::UpperOfY, Ok(Place::Upper(1))));
    assert!(rt; is_located(alloc, &model, Target::CoefOfX, Ok(Place::Coef(0, 0))));
    assert!(rt; is_located(alloc, &model, Target::LowOfR, Err(PlaceError::NoSide)));
    assert!(rt; is_located(alloc, &model, Target::CoefOfZ, Err(PlaceError::UnknownName)));
    Ok(())
}
