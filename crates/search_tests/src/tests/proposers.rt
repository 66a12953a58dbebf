//! Searches with poor proposers: whatever is proposed, the optimum of a model is found, or that it has no point.

ghost use Rattle.std.specs.Prelude.{◌≡◌, ◌<◌, None};
ghost use Rattle.ip_model.specs.Sizes.{first_crossed};

use branching::{
    Claim, Limits, Numerators, Outcome, Proof, Proposal, Proposed, Proposer, Steps, Task,
    solve_with,
};
use ip_defs::{Cert, Memory, Multipliers};
use ip_model::{IntModel, cost, crossed};
use sample_models::{SampleError, half, no_rows, one_column, parity, three_rows};
use std::alloc::Global;
use std::marker::Brand;
use std::sync::ledger::{Blank, Ledger};
use std::test::Fail;

/// A certificate of one row at most.
fn certificate(alloc: Global, q: i64, row: u32, multiplier: i64) -> Result<Cert, Memory> {
    let y = vec![in alloc; (row, multiplier)]?;
    Ok(Cert {
        q,
        y: Multipliers::from_vec(y),
    })
}

/// Proposes nothing.
#[derive(Drop)]
struct GivesUp;

impl Proposer for GivesUp {
    fn propose(&mut self, _alloc: Global, _task: &Task) -> Result<Proposed, Memory> {
        Ok(Proposed::GaveUp)
    }
}

/// Proposes in turn a point of the wrong length over 0, points that lie nowhere, a bound that is none, a row that is not there, and a box
/// that is empty.
#[derive(Drop)]
struct Nonsense {
    turn: u32,
}

impl Proposer for Nonsense {
    fn propose(&mut self, alloc: Global, task: &Task) -> Result<Proposed, Memory> {
        self.turn = self.turn.wrapping_add(1) % 5;
        match self.turn {
            0 => Ok(Proposed::Best(Proposal {
                numerators: Numerators::from_vec(vec![in alloc; i128::MIN, 7]?),
                denominator: 0,
                cert: certificate(alloc, -1, 0, i64::MIN)?,
            })),
            1 => Ok(Proposed::Best(Proposal {
                numerators: Numerators::from_vec(vec![in alloc; i128::MAX; task
                    .area
                    .as_slice()
                    .len()]?),
                denominator: i128::MIN,
                cert: certificate(alloc, 1, 0, 1)?,
            })),
            2 => Ok(Proposed::Cut(certificate(alloc, 1, 0, 0)?)),
            3 => Ok(Proposed::Cut(certificate(alloc, i64::MAX, u32::MAX, -1)?)),
            _ => Ok(Proposed::Empty(certificate(alloc, 0, 0, 1)?)),
        }
    }
}

/// Proposes the lowest point of each box as the best one.
#[derive(Drop)]
struct FirstPoint;

impl Proposer for FirstPoint {
    fn propose(&mut self, alloc: Global, task: &Task) -> Result<Proposed, Memory> {
        let mut numerators = Vec::new(alloc);
        for side in task.area.as_slice() {
            numerators.push(i128::from(side.0))?;
        }
        Ok(Proposed::Best(Proposal {
            numerators: Numerators::from_vec(numerators),
            denominator: 1,
            cert: certificate(alloc, 1, 0, 0)?,
        }))
    }
}

/// The outcome of a search with a fresh counter of steps.
fn counted_search<P: Proposer, L: Ledger>(
    alloc: Global,
    model: &IntModel,
    proposer: &mut P,
    blank: Blank,
) -> Result<Outcome, Memory>
    requires uncrossed { first_crossed model.now ≡ None }
    requires name { blank.name ≡ L.name }
    requires parts { blank.parts ≡ L.parts }
    requires some { 0 < L.parts }
{
    let limits = Limits {
        nodes: 100_000,
        depth: 800,
        pivots: 5_000,
    };
    let mut steps = Steps::<L>::new(blank);
    solve_with(alloc, model, limits, proposer, &mut steps)
}

/// Whether a proof claims a point of this cost, or that there is none.
fn claims(model: &IntModel, proof: &Proof, want: Option<i128>) -> bool {
    match &proof.claim {
        Claim::Best(point) => {
            let columns = model.parts().columns.as_slice().len();
            point.as_slice().len() == columns && want == Some(cost(model, point))
        }
        Claim::Empty => want.is_none(),
    }
}

/// Whether a search finds the optimal value of a model, or that it has none.
fn finds<P: Proposer>(
    alloc: Global,
    model: Result<IntModel, SampleError>,
    want: Option<i128>,
    proposer: &mut P,
) -> bool {
    let Ok(model) = model else {
        return false;
    };
    if crossed(&model).is_some() {
        return false;
    }
    match counted_search::<P, Brand>(alloc, &model, proposer, Blank::new(1)) {
        Ok(Outcome::Best { proof, .. }) => claims(&model, &proof, want),
        Ok(Outcome::Empty { proof, .. }) => claims(&model, &proof, want),
        Ok(Outcome::Budget { .. }) => false,
        Err(_) => false,
    }
}

/// Whether each of four optimal values is found, and that a model has no point.
fn finds_all<P: Proposer>(alloc: Global, proposer: &mut P) -> bool {
    finds(alloc, half(alloc, 5), Some(-1), proposer)
        && finds(alloc, three_rows(alloc), Some(-13), proposer)
        && finds(alloc, no_rows(alloc), Some(-4), proposer)
        && finds(alloc, one_column(alloc, 3, 2, 6), Some(6), proposer)
        && finds(alloc, parity(alloc, 1), None, proposer)
}

#[test]
fn with_one_that_gives_up(rt: HostRuntime) -> Result<(), Fail> {
    assert!(rt; finds_all(rt.alloc(), &mut GivesUp));
    Ok(())
}

#[test]
fn with_one_that_proposes_nonsense(rt: HostRuntime) -> Result<(), Fail> {
    assert!(rt; finds_all(rt.alloc(), &mut Nonsense { turn: 0 }));
    Ok(())
}

#[test]
fn with_one_that_proposes_the_first_point(rt: HostRuntime) -> Result<(), Fail> {
    assert!(rt; finds_all(rt.alloc(), &mut FirstPoint));
    Ok(())
}
