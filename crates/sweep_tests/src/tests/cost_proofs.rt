//! Proofs of cost sweeps of small programs, whole and spoiled, and their verdicts.
ghost use Rattle.std.specs.Prelude.{IsTrue};
ghost use Rattle.sweep_proof.specs.CostSweeps.{IsDirection};

use frac128::{Frac, frac};
use ip_defs::{Cert, Multipliers};
use ip_model::IntModel;
use leaf_cert::scratch;
use perturbation::cost_line;
use sample_models::{SampleError, column, model, row};
use std::alloc::{Alloc, Global};
use sweep_proof::{
    Bound, Breach, Breaks, CostSweep, Memory, Point, Points, SweepVerdict, Tree, Trees,
    check_cost_sweep, cost_sweep_fits,
};

/// A program and a sweep of it: cost and upper bound of each column, whose lower bounds are 0; the low side of the one row, whose
/// coefficients are 1, if there is a row; the direction and the ends of the sweep.
struct Line {
    columns: &'static [(i64, i64)],
    low: Option<i64>,
    dir: &'static [i64],
    ends: (i64, i64),
}

/// A proof: its breaks as numerators and denominators, its points, and its trees of one leaf, each with the divisor of its certificate and
/// the multiplier of the one row, or 0 for none.
struct Proof {
    breaks: &'static [(i64, i64)],
    points: &'static [&'static [i64]],
    trees: &'static [(i64, i64)],
}

fn model_of(alloc: Global, line: &Line) -> Result<IntModel, SampleError> {
    let mut columns = Vec::new(alloc);
    let mut coefs = Vec::new(alloc);
    for (j, (cost, hi)) in line.columns.iter().enumerate() {
        columns.push(column(alloc, *cost, 0, *hi))?;
        coefs.push((u32::try_from(j).unwrap_or(0), 1))?;
    }
    let mut rows = Vec::new(alloc);
    if let Some(low) = line.low {
        rows.push(row(alloc, coefs.as_slice(), Some(low), None)?)?;
    }
    model(alloc, columns, rows)
}

/// The fraction of a numerator and a positive denominator.
fn fraction(num: i64, den: i64) -> Frac {
    if den < 1 {
        return Frac::from_whole(num);
    }
    frac(i128::from(num), i128::from(den))
}

fn leaf(alloc: Global, q: i64, multiplier: i64) -> Result<Tree, Memory> {
    let y = if multiplier == 0 {
        Vec::new(alloc)
    } else {
        Vec::from_slice(alloc, &[(0, multiplier)])?
    };
    Ok(Tree::Leaf(Cert {
        q,
        y: Multipliers::from_vec(y),
    }))
}

fn breaks_of(alloc: Global, proof: &Proof) -> Result<Breaks, Memory> {
    let mut breaks = Breaks::from_vec(Vec::new(alloc));
    for (num, den) in proof.breaks {
        breaks.push(fraction(*num, *den))?;
    }
    Ok(breaks)
}

fn points_of(alloc: Global, proof: &Proof) -> Result<Points, Memory> {
    let mut points = Points::from_vec(Vec::new(alloc));
    for point in proof.points {
        points.push(Point::from_vec(Vec::from_slice(alloc, point)?))?;
    }
    Ok(points)
}

fn sweep_of(alloc: Global, proof: &Proof) -> Result<CostSweep, Memory> {
    let mut trees = Trees::from_vec(Vec::new(alloc));
    for (q, multiplier) in proof.trees {
        trees.push(leaf(alloc, *q, *multiplier)?)?;
    }
    Ok(CostSweep {
        breaks: breaks_of(alloc, proof)?,
        points: points_of(alloc, proof)?,
        trees,
    })
}

/// Whether a list is a direction of the costs of a model.
fn is_direction(model: &IntModel, dir: &[i64]) -> bool
    ensures { IsTrue result → IsDirection model.now dir.now }
{
    for step in dir {
        if step.unsigned_abs() > 1 << 40 {
            return false;
        }
    }
    dir.len() == model.parts().columns.as_slice().len()
}

/// The verdict on a proof that fits, where no cost exceeds its limit at the first parameter.
fn verdict_on(
    alloc: Global,
    model: &IntModel,
    line: &Line,
    sweep: &CostSweep,
) -> Option<SweepVerdict> {
    if !cost_sweep_fits(model, sweep) || !is_direction(model, line.dir) {
        return None;
    }
    let (from, to) = line.ends;
    match (
        cost_line(alloc, model, line.dir, i128::from(from), 1),
        scratch(alloc, model),
    ) {
        (Ok(_), Ok(mut scratch)) => {
            if scratch.area.as_slice().len() != model.parts().columns.as_slice().len() {
                return None;
            }
            check_cost_sweep(alloc, model, line.dir, from, to, sweep, &mut scratch).ok()
        }
        _ => None,
    }
}

/// The verdict on a proof.
fn verdict(alloc: Global, line: &Line, proof: &Proof) -> Option<SweepVerdict> {
    match (model_of(alloc, line), sweep_of(alloc, proof)) {
        (Ok(model), Ok(sweep)) => verdict_on(alloc, &model, line, &sweep),
        _ => None,
    }
}

/// Least -x for x from 0 to 1, where the cost rises by 3: 1 up to the parameter 1/3, then 0.
const DEARER: Line = Line {
    columns: &[(-1, 1)],
    low: None,
    dir: &[3],
    ends: (0, 1),
};

/// Least x + y with x + y >= 3, both from 0 to 3, where x grows dearer and y cheaper.
const APART: Line = Line {
    columns: &[(1, 3), (1, 3)],
    low: Some(3),
    dir: &[1, -1],
    ends: (-2, 2),
};

/// Least x with x >= 2 for x from 0 to 1.
const CROWDED: Line = Line {
    columns: &[(1, 1)],
    low: Some(2),
    dir: &[1],
    ends: (0, 1),
};

const BOXES: [(i64, i64); 3] = [(1, 0), (1, 0), (1, 0)];

const THIRD: [(i64, i64); 3] = [(0, 1), (1, 3), (1, 1)];

const FIRST: SweepVerdict = SweepVerdict::Cover { piece: 0 };

/// Sweeps, proofs and verdicts.
const CASES: [(&Line, Proof, SweepVerdict); 14] = [
    (
        &DEARER,
        Proof {
            breaks: &THIRD,
            points: &[&[1], &[0]],
            trees: &BOXES,
        },
        SweepVerdict::Proved,
    ),
    (
        &APART,
        Proof {
            breaks: &[(-2, 1), (0, 1), (2, 1)],
            points: &[&[3, 0], &[0, 3]],
            trees: &[(1, 0), (1, 1), (1, 0)],
        },
        SweepVerdict::Proved,
    ),
    (
        &CROWDED,
        Proof {
            breaks: &[(0, 1), (1, 1)],
            points: &[],
            trees: &[(0, 1)],
        },
        SweepVerdict::Proved,
    ),
    // a break at which the points do not cost the same
    (
        &DEARER,
        Proof {
            breaks: &[(0, 1), (1, 2), (1, 1)],
            points: &[&[1], &[0]],
            trees: &BOXES,
        },
        SweepVerdict::Meet {
            piece: 0,
            left: 1,
            right: 0,
        },
    ),
    // a tree too few, other ends, and breaks that do not rise
    (
        &DEARER,
        Proof {
            breaks: &THIRD,
            points: &[&[1], &[0]],
            trees: &[(1, 0), (1, 0)],
        },
        FIRST,
    ),
    (
        &DEARER,
        Proof {
            breaks: &[(0, 1), (1, 3), (2, 1)],
            points: &[&[1], &[0]],
            trees: &BOXES,
        },
        FIRST,
    ),
    (
        &DEARER,
        Proof {
            breaks: &[(0, 1), (1, 1), (1, 1)],
            points: &[&[1], &[0]],
            trees: &BOXES,
        },
        SweepVerdict::Cover { piece: 1 },
    ),
    // a cost of 2^41 at the second break
    (
        &DEARER,
        Proof {
            breaks: &[(0, 1), (1, 2_199_023_255_552), (1, 1)],
            points: &[&[1], &[0]],
            trees: &BOXES,
        },
        FIRST,
    ),
    // a point outside, and slopes that rise or stay
    (
        &DEARER,
        Proof {
            breaks: &THIRD,
            points: &[&[1], &[2]],
            trees: &BOXES,
        },
        SweepVerdict::Breach {
            piece: 1,
            place: Breach::Column(0),
        },
    ),
    (
        &DEARER,
        Proof {
            breaks: &THIRD,
            points: &[&[0], &[1]],
            trees: &BOXES,
        },
        SweepVerdict::Fall {
            piece: 0,
            left: 0,
            right: 3,
        },
    ),
    (
        &DEARER,
        Proof {
            breaks: &THIRD,
            points: &[&[1], &[1]],
            trees: &BOXES,
        },
        SweepVerdict::Fall {
            piece: 0,
            left: 3,
            right: 3,
        },
    ),
    // bounds below a claim: at the last break, at one inside, and where a point is feasible
    (
        &DEARER,
        Proof {
            breaks: &[(0, 1), (1, 1)],
            points: &[&[1]],
            trees: &[(1, 0), (1, 0)],
        },
        SweepVerdict::Short {
            piece: 0,
            bound: Bound::At(0),
            claim: Some(2),
        },
    ),
    (
        &APART,
        Proof {
            breaks: &[(-2, 1), (0, 1), (2, 1)],
            points: &[&[3, 0], &[0, 3]],
            trees: &BOXES,
        },
        SweepVerdict::Short {
            piece: 0,
            bound: Bound::At(0),
            claim: Some(3),
        },
    ),
    (
        &DEARER,
        Proof {
            breaks: &[(0, 1), (1, 1)],
            points: &[],
            trees: &[(1, 0)],
        },
        SweepVerdict::Short {
            piece: 0,
            bound: Bound::At(-1),
            claim: None,
        },
    ),
];

#[test]
fn verdicts_on_cost_sweeps(rt: HostRuntime) {
    for (line, proof, want) in &CASES {
        assert!(rt; verdict(rt.alloc(), *line, proof) == Some(*want));
    }
}
