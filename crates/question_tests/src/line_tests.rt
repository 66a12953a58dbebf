//! Models along two lines of a small model: what no clause says is that memory suffices.
ghost use Rattle.std.specs.Prelude.{◌≡◌, ◌≤◌, ◌<ℤ◌, ◌^◌, IsTrue, length, pos};
ghost use Rattle.std.specs.Int.RustNames.{unsigned_abs};
ghost use Rattle.ip_model.specs.declared.places.Place.TheVariants as At;
ghost use Rattle.perturbation.specs.Lines.{IsSide};

use crate::models::{becomes, is_refused, model};
use ip_model::{IntModel, Place};
use perturbation::{LineError, cost_line, row_line};
use sample_models::SampleError;
use std::alloc::{Alloc, Global};

/// Whether a model has two columns.
fn has_two_columns(model: &IntModel) -> bool
    ensures { IsTrue result → length model.now.columns ≡ 2 }
{
    model.parts().columns.as_slice().len() == 2
}

/// The model at the parameter p/q along a line of costs.
fn along_the_costs(
    alloc: Global,
    model: &IntModel,
    costs: (i64, i64),
    p: i128,
    q: i128,
) -> Result<IntModel, LineError>
    requires first { unsigned_abs costs.0 ≤ 2 ^ 40 }
    requires second { unsigned_abs costs.1 ≤ 2 ^ 40 }
    requires p { unsigned_abs p ≤ 2 ^ 80 }
    requires q { unsigned_abs q ≤ 2 ^ 80 }
    requires positive { pos 0 <ℤ q }
{
    if !has_two_columns(model) {
        return Err(LineError::Memory);
    }
    cost_line(alloc, model, &[costs.0, costs.1], p, q)
}

#[test]
fn lines_of_costs(rt: HostRuntime) -> Result<(), SampleError> {
    let alloc = rt.alloc();
    let model = model(alloc, 0, 0)?;
    let want = [0, 9, 0, 4, -3, 0, 4, 99, 3, 0, 2, 1, -2];
    assert!(rt;
        becomes(
            alloc,
            along_the_costs(alloc, &model, (3, 0), 1, 3),
            want.as_slice()
        )
    );
    assert!(rt;
        is_refused(
            along_the_costs(alloc, &model, (0, 1), 1 << 41, 1),
            LineError::Limit { column: 1 }
        )
    );
    Ok(())
}

/// Whether the first row has a high side.
fn has_high_side(model: &IntModel) -> bool
    ensures { IsTrue result → IsSide model.now (At.High 0) }
{
    match model.parts().rows.as_slice().get(0) {
        Some(row) => row.high.is_some(),
        None => false,
    }
}

/// The model after five steps of the high side of the first row.
fn five_steps(alloc: Global, model: &IntModel, step: i64) -> Result<IntModel, LineError>
    requires { unsigned_abs step ≤ 2 ^ 62 }
{
    if !has_high_side(model) {
        return Err(LineError::Memory);
    }
    row_line(alloc, model, &[(Place::High(0), step)], 5)
}

#[test]
fn lines_of_sides(rt: HostRuntime) -> Result<(), SampleError> {
    let alloc = rt.alloc();
    let model = model(alloc, 0, 0)?;
    let want = [7, 2, 0, 4, -1, 0, 4, 99, 13, 0, 2, 1, -2];
    assert!(rt; becomes(alloc, five_steps(alloc, &model, 2), want.as_slice()));
    assert!(rt;
        is_refused(
            five_steps(alloc, &model, 1 << 60),
            LineError::Limit { column: 0 }
        )
    );
    Ok(())
}
