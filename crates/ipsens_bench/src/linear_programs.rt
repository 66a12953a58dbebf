//! Linear programs: the relaxation of a model file over the model's own box.
ghost use Rattle.std.specs.Prelude.{◌≡◌, ◌<◌, None, false, length};
ghost use Rattle.std.specs.Bool.{OnTrue};
ghost use Rattle.std.specs.List.{list_any};
ghost use Rattle.ip_defs.specs.Certificates.{is_empty_side};
ghost use Rattle.ip_model.specs.Sizes.{first_crossed};

use crate::BenchError;
use crate::requests::Solving;
use frac128::Frac;
use ip_defs::Area;
use ip_model::{IntModel, box_of, crossed, has_empty_column};
use ips_io::{FileShelf, read_all};
use mps_defs::How;
use mps_reader::read;
use simplex_exact::{LpAnswer, Steps, solve_lp};
use std::alloc::{AllocError, Global};
use std::fs::Files;
use std::marker::Brand;
use std::sync::ledger::{Blank, Ledger};

/// The most bytes of a model file.
const MOST_BYTES: u64 = 16_777_216;

/// The model of a file.
fn model_of<R: Files + Drop>(
    alloc: Global,
    shelf: &mut FileShelf<R>,
    file: &str,
) -> Result<IntModel, BenchError> {
    let Ok(bytes) = read_all(alloc, shelf, file, MOST_BYTES) else {
        return Err(BenchError::NoModel);
    };
    if bytes.len() > 16_777_216 {
        return Err(BenchError::NoModel);
    }
    let how = How {
        digits: 0,
        box_side: None,
    };
    match read(alloc, bytes.as_slice(), how) {
        Ok(model) => Ok(model),
        Err(_) => Err(BenchError::NoModel),
    }
}

/// Whether a model can be solved over a box: it has a pair of bounds for each column, no column is empty and no row is crossed.
fn can_solve(model: &IntModel, area: &Area) -> bool
    ensures size { OnTrue result (length area.now ≡ length model.now.columns) }
    ensures proper { OnTrue result (list_any is_empty_side area.now ≡ false) }
    ensures uncrossed { OnTrue result (first_crossed model.now ≡ None) }
{
    let columns = model.parts().columns.as_slice().len();
    area.as_slice().len() == columns
        && !has_empty_column(area.as_slice())
        && crossed(model).is_none()
}

/// The last of a number of equal answers, none for the number 0.
fn solve_often<L: Ledger>(
    alloc: Global,
    model: &IntModel,
    pivots: u32,
    count: u32,
    blank: Blank,
) -> Result<Option<LpAnswer>, BenchError>
    requires name { blank.name ≡ L.name }
    requires parts { blank.parts ≡ L.parts }
    requires some { 0 < L.parts }
{
    let mut steps = Steps::<L>::new(blank);
    let area = box_of(alloc, model)?;
    if !can_solve(model, &area) {
        return Err(BenchError::NoModel);
    }
    let mut answer = None;
    for _ in 0..count {
        answer = Some(solve_lp(alloc, model, &area, pivots, &mut steps)?);
    }
    Ok(answer)
}

/// Appends each number that is not 0.
fn push_numbers(alloc: Global, text: &mut String, numbers: &[Frac]) -> Result<(), AllocError> {
    for x in numbers {
        if x.num() != 0 {
            let number = format!(in alloc; " {}/{}", x.num(), x.den())?;
            text.push_str(number.as_str())?;
        }
    }
    Ok(())
}

/// An answer as text: an optimal point and its dual prices without their zeros, or how else the simplex ended.
fn text_of(alloc: Global, answer: &Option<LpAnswer>) -> Result<String, AllocError> {
    match answer {
        Some(LpAnswer::Best { point, prices }) => {
            let mut text = String::from_str(alloc, "best")?;
            push_numbers(alloc, &mut text, point.as_slice())?;
            text.push_str(" prices")?;
            push_numbers(alloc, &mut text, prices.as_slice())?;
            Ok(text)
        }
        Some(LpAnswer::Empty { ray: _ }) => String::from_str(alloc, "empty"),
        Some(LpAnswer::Stopped) => String::from_str(alloc, "stopped"),
        Some(LpAnswer::Wide) => String::from_str(alloc, "wide"),
        None => String::from_str(alloc, "not solved"),
    }
}

/// The last of a number of equal answers as text, for a counter of steps.
fn solved(
    alloc: Global,
    model: &IntModel,
    pivots: u32,
    count: u32,
    blank: Blank,
) -> Result<String, BenchError>
    requires { 0 < blank.parts }
{
    let answer = solve_often::<Brand>(alloc, model, pivots, count, blank)?;
    Ok(text_of(alloc, &answer)?)
}

/// The answer for a model file, computed a number of times within a number of steps each.
pub fn answer_after<R: Files + Drop>(
    alloc: Global,
    shelf: &mut FileShelf<R>,
    solving: Solving,
) -> Result<String, BenchError> {
    let model = model_of(alloc, shelf, solving.file)?;
    solved(alloc, &model, solving.steps, solving.count, Blank::new(1))
}
