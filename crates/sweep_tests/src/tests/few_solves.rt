//! How many solves a sweep of few values takes.
ghost use Rattle.std.specs.Prelude.{◌≡◌, ◌<◌};

use crate::tests::drawn_sweeps::Drawn;
use crate::tests::row_sweeps::swept;
use branching::Steps;
use ip_model::Place;
use rhs_sweep::RowStop;
use sample_models::{SampleError, column, model, row};
use std::alloc::{Alloc, Global};
use std::marker::Brand;
use std::sync::ledger::{Blank, Ledger};

/// How many nodes the trees of the sweep of ten values have together.
const NODES: u32 = 182;
/// How many solves it takes: at most 119, twelve times the logarithm of 1,000 to the base 2.
const SOLVES: usize = 70;

/// Ten values in a thousand steps: up to nine units, each of which takes a hundred of the side that moves.
fn ten_values(alloc: Global) -> Result<Drawn, SampleError> {
    let mut columns = Vec::new(alloc);
    columns.push(column(alloc, -1, 0, 9))?;
    let mut rows = Vec::new(alloc);
    rows.push(row(alloc, &[(0, 100)], None, Some(0))?)?;
    Ok(Drawn {
        model: model(alloc, columns, rows)?,
        dir: [(Place::High(0), 1), (Place::High(0), 0)],
        last: 999,
    })
}

/// Whether the sweep is answered within a number of nodes, and else how many solves are finished when none is left.
fn solved<L: Ledger>(alloc: Global, nodes: u32, blank: Blank) -> (bool, usize)
    requires some { 0 < L.parts }
    requires parts { blank.parts ≡ L.parts }
    requires name { blank.name ≡ L.name }
{
    let mut steps = Steps::<L>::new(blank);
    match ten_values(alloc) {
        Ok(sweep) => match swept(alloc, &sweep, nodes, &mut steps) {
            Some(Ok(_)) => (true, 0),
            Some(Err(RowStop::Budget { made, .. })) => (false, made.as_slice().len()),
            _ => (false, 0),
        },
        Err(_) => (false, 0),
    }
}

/// The same with a counter of its own.
fn within(alloc: Global, nodes: u32) -> (bool, usize) {
    solved::<Brand>(alloc, nodes, Blank::new(1))
}

#[test]
fn solves_of_ten_values(rt: HostRuntime) {
    let (answered, _) = within(rt.alloc(), NODES);
    assert!(rt; answered);
    let (_, finished) = within(rt.alloc(), NODES - 1);
    let _ = println!(rt; "1,000 steps with 10 values take {finished} solves and one more");
    assert!(rt; finished == SOLVES - 1);
}
