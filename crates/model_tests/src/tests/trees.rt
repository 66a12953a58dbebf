//! Bounds, misfits and limits of small trees, and trees as deep as the limit.
use ip_defs::Multipliers;
use ip_model::IntModel;
use leaf_cert::scratch;
use proof_tree::{
    Bound, Cert, Claim, Point, Proof, Shape, ShapeWhat, Tree, TreeLimit, fits_model, tree_bound,
    tree_limits,
};
use sample_models::{SampleError, difference, one_column, parity};
use std::alloc::{Alloc, Global};

/// A leaf with a divisor and multipliers.
fn leaf(alloc: Global, q: i64, y: &[(u32, i64)]) -> Result<Tree, SampleError> {
    Ok(Tree::Leaf(Cert {
        q,
        y: Multipliers::from_vec(Vec::from_slice(alloc, y)?),
    }))
}

/// A tree in a box.
fn boxed(alloc: Global, tree: Result<Tree, SampleError>) -> Result<Box<Tree>, SampleError> {
    Ok(Box::new(alloc, tree?)?)
}

/// A split over two trees, where memory sufficed for both.
fn split(
    alloc: Global,
    col: u32,
    at: i64,
    left: Result<Tree, SampleError>,
    right: Result<Tree, SampleError>,
) -> Result<Tree, SampleError> {
    match (boxed(alloc, left), boxed(alloc, right)) {
        (Ok(left), Ok(right)) => Ok(Tree::Split {
            col,
            at,
            left,
            right,
        }),
        _ => Err(SampleError::Memory),
    }
}

/// Splits of both columns with a ray at each leaf: `col` is the column of the second split, `row` the row of the last ray.
fn rays(alloc: Global, col: u32, row: u32) -> Result<Tree, SampleError> {
    let left = leaf(alloc, 0, &[(0, -1)]);
    let right = split(alloc, col, 0, left, leaf(alloc, 0, &[(row, 1)]));
    split(alloc, 0, 0, leaf(alloc, 0, &[(0, 1)]), right)
}

/// The bound of a tree where it is within the limits and fits.
fn bound_within(
    alloc: Global,
    model: &IntModel,
    proof: &Proof,
) -> Result<Option<Bound>, SampleError> {
    let mut scratch = scratch(alloc, model)?;
    let columns = model.parts().columns.as_slice().len();
    if scratch.area.as_slice().len() != columns
        || tree_limits(&proof.tree).is_some()
        || fits_model(model, proof).is_err()
    {
        return Ok(None);
    }
    Ok(Some(tree_bound(alloc, model, &proof.tree, &mut scratch)))
}

/// The bound of a tree over a model, where memory sufficed for both. None where the tree exceeds a limit or does not fit.
fn bound_of(
    alloc: Global,
    model: Result<IntModel, SampleError>,
    tree: Result<Tree, SampleError>,
) -> Result<Option<Bound>, SampleError> {
    match (model, tree) {
        (Ok(model), Ok(tree)) => {
            let claim = Claim::Empty;
            bound_within(alloc, &model, &Proof { claim, tree })
        }
        _ => Err(SampleError::Memory),
    }
}

#[test]
fn bounds_of_rays(rt: HostRuntime) {
    let alloc = rt.alloc();
    for (low, high, want) in [(1, 1, Bound::Infinite), (0, 2, Bound::At(0))] {
        let model = difference(alloc, 1, low, high);
        assert!(rt; bound_of(alloc, model, rays(alloc, 1, 0)) == Ok(Some(want)));
    }
}

/// Whether a proof fits a model. None where its tree exceeds a limit.
fn fit(model: &IntModel, proof: &Proof) -> Option<Result<(), Shape>> {
    if tree_limits(&proof.tree).is_some() {
        None
    } else {
        Some(fits_model(model, proof))
    }
}

/// Whether a claim of a point of zeros and a tree fit a model. None where the tree exceeds a limit or memory runs out.
fn fit_of(
    alloc: Global,
    model: &IntModel,
    length: usize,
    tree: Result<Tree, SampleError>,
) -> Option<Result<(), Shape>> {
    match (vec![in alloc; 0; length], tree) {
        (Ok(zeros), Ok(tree)) => {
            let claim = Claim::Best(Point::from_vec(zeros));
            fit(model, &Proof { claim, tree })
        }
        _ => None,
    }
}

/// As `fit_of`, for the tree of `rays` and the model of parity.
fn fit_of_rays(alloc: Global, length: usize, col: u32, row: u32) -> Option<Result<(), Shape>> {
    match parity(alloc, 1) {
        Ok(model) => fit_of(alloc, &model, length, rays(alloc, col, row)),
        Err(_) => None,
    }
}

/// How many coordinates are claimed, the numbers that `rays` takes, and the misfit.
const MISFITS: [(usize, u32, u32, Result<(), Shape>); 4] = [
    (2, 1, 0, Ok(())),
    (
        1,
        2,
        1,
        Err(Shape {
            node: 0,
            what: ShapeWhat::PointLength,
        }),
    ),
    (
        2,
        2,
        1,
        Err(Shape {
            node: 2,
            what: ShapeWhat::ColumnNumber,
        }),
    ),
    (
        2,
        1,
        1,
        Err(Shape {
            node: 4,
            what: ShapeWhat::RowNumber,
        }),
    ),
];

#[test]
fn shapes_of_misfits(rt: HostRuntime) {
    for (length, col, row, want) in &MISFITS {
        assert!(rt; fit_of_rays(rt.alloc(), *length, *col, *row) == Some(*want));
    }
}

/// A chain of splits of the first column at a number, each with a leaf in one half and the next split in the other.
fn chain(alloc: Global, at: i64, to_the_left: bool, splits: u32) -> Result<Tree, SampleError> {
    let mut tree = leaf(alloc, 1, &[]);
    for _ in 0..splits {
        let other = leaf(alloc, 1, &[]);
        tree = if to_the_left {
            split(alloc, 0, at, tree, other)
        } else {
            split(alloc, 0, at, other, tree)
        };
    }
    tree
}

/// Two chains under one split. The column lies between 0 and 1000, so one half of each split of a chain is empty.
fn two_chains(alloc: Global, splits: u32) -> Result<Tree, SampleError> {
    let left = chain(alloc, 1000, true, splits);
    split(alloc, 0, 500, left, chain(alloc, -1, false, splits))
}

/// The first limit that a tree exceeds, where memory sufficed for the tree.
fn limit_of(tree: Result<Tree, SampleError>) -> Result<Option<TreeLimit>, SampleError> {
    Ok(tree_limits(&tree?))
}

#[test]
fn deep_trees(rt: HostRuntime) {
    let alloc = rt.alloc();
    assert!(rt; limit_of(two_chains(alloc, 799)) == Ok(None));
    assert!(rt; limit_of(two_chains(alloc, 800)) == Ok(Some(TreeLimit::Depth)));
    for (cost, want) in [(1, 0), (-1, -1000)] {
        let model = one_column(alloc, cost, 0, 1000);
        let bound = bound_of(alloc, model, two_chains(alloc, 799));
        assert!(rt; bound == Ok(Some(Bound::At(want))));
    }
}

/// The GREATEST absolute value of a cut and of a bound of a column.
const GREATEST: i64 = 1 << 24;

/// The column and the cut of a split, and the bound of its tree.
const CUTS: [(u32, i64, Option<Bound>); 4] = [
    (0, GREATEST, Some(Bound::At(-(1 << 24)))),
    (0, -GREATEST, Some(Bound::At(-(1 << 24)))),
    (0, GREATEST + 1, None),
    (1, 0, None),
];

#[test]
fn cuts_at_the_limit(rt: HostRuntime) {
    let alloc = rt.alloc();
    for (col, at, want) in &CUTS {
        let tree = split(alloc, *col, *at, leaf(alloc, 1, &[]), leaf(alloc, 1, &[]));
        let model = one_column(alloc, -1, 0, GREATEST);
        assert!(rt; bound_of(alloc, model, tree) == Ok(*want));
    }
}
