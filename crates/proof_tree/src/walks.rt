//! The bound of a tree, by a walk that cuts one box in place.
ghost use Rattle.std.specs.Prelude.{List, ℤ, ◌≡◌, ◌≤◌, ◌^◌, ◌+ℤ◌, length};
ghost use Rattle.std.specs.Int.RustNames.{unsigned_abs};
ghost use Rattle.ip_defs.specs.Limits.{IsArea};
ghost use Rattle.ip_defs.specs.Certificates.{IsAtMost};
ghost use Rattle.ip_defs.specs.Program.{box_of, cost, IsFeasible};
ghost use Rattle.ip_model.specs.Places.{Exists, raised};
ghost use Rattle.leaf_cert.specs.Changes.{IsChange, IsWithinLimit, changed_by};
ghost use Rattle.leaf_cert.specs.Scratches.{FitsScratch, column_count_of};
ghost use Rattle.proof_tree.specs.Scratches.{FitsWalk};
ghost use Rattle.proof_tree.specs.Trees.{plain, bound_min, bound_over, tree_bound as tree_bound_of, FitsColumns, FitsModel, FitsRows};
ghost use Rattle.proof_tree.specs.Within.{AreNumbersWithin, IsTreeWithin};

use crate::Tree;
use ip_defs::{Area, Bound};
use ip_model::{IntModel, Place, cut_above, cut_below, set_box};
use leaf_cert::{Change, Scratch, leaf_bound_after};
use std::alloc::Global;
use std::mem;

/// A bound of a column after a change.
fn moved(side: i64, by: i128) -> i64
    requires { unsigned_abs (side +ℤ by) ≤ 2 ^ 24 }
    ensures { result ≡ side +ℤ by }
{
    (i128::from(side) + by) as i64
}

/// The lesser of two bounds: an infinite one is greater than each other.
pub fn lesser(first: Bound, second: Bound) -> Bound
    ensures { result ≡ bound_min first second }
{
    match (first, second) {
        (Bound::At(v), Bound::At(w)) => Bound::At(v.min(w)),
        (Bound::At(v), Bound::Infinite) => Bound::At(v),
        (Bound::Infinite, w) => w,
    }
}

/// The bound of a subtree after a change, over a box, which the walk changes and restores. The bound of a half without a point is infinite
/// whatever its leaves are, so the walk skips that half.
fn walk(
    model: &IntModel,
    change: Change,
    tree: &Tree,
    area: &mut Area,
    scratch: &mut Scratch,
) -> Bound
    requires change { IsChange model.now change }
    requires numbers { AreNumbersWithin (plain tree.now) }
    requires columns { FitsColumns (length model.now.columns) (plain tree.now) }
    requires rows { FitsRows (length model.now.rows) (plain tree.now) }
    requires area { IsArea (length model.now.columns) area.old }
    requires scratch { FitsScratch model.now scratch.old }
    ensures bound { result ≡ bound_over (changed_by model.now change) (plain tree.now) area.old }
    ensures restored { area.new ≡ area.old }
    ensures scratch { column_count_of scratch.new ≡ column_count_of scratch.old }
{
    match tree {
        Tree::Leaf(cert) => leaf_bound_after(model, change, cert, area, scratch),
        Tree::Split {
            col,
            at,
            left,
            right,
        } => {
            let j = *col as usize;
            let side = area.as_slice()[j];
            let below = if cut_below(area, j, *at) {
                walk(model, change, left, area, scratch)
            } else {
                Bound::Infinite
            };
            area.set(j, side);
            let above = if cut_above(area, j, *at) {
                walk(model, change, right, area, scratch)
            } else {
                Bound::Infinite
            };
            area.set(j, side);
            lesser(below, above)
        }
    }
}

/// Changes the box of a model to that of the model in which the number at a place is raised by `by`.
fn raise_side(model: &IntModel, place: Place, by: i128, area: &mut Area)
    requires exists { Exists model.now place }
    requires within { IsWithinLimit model.now place by }
    requires area { area.old ≡ box_of model.now }
    ensures { area.new ≡ box_of (raised model.now place by) }
{
    match place {
        Place::Lower(j) => {
            let side = area.as_slice()[j as usize];
            area.set(j as usize, (moved(side.0, by), side.1));
        }
        Place::Upper(j) => {
            let side = area.as_slice()[j as usize];
            area.set(j as usize, (side.0, moved(side.1, by)));
        }
        Place::Cost(_) | Place::Low(_) | Place::High(_) | Place::Coef(_, _) => {}
    }
}

/// Sets a box with one pair for each column to the box of a model after a change.
fn set_box_after(model: &IntModel, change: Change, area: &mut Area)
    requires change { IsChange model.now change }
    requires area { length area.old ≡ length model.now.columns }
    ensures sides { area.new ≡ box_of (changed_by model.now change) }
    ensures limits { IsArea (length model.now.columns) area.new }
{
    set_box(model, area);
    match change {
        Some((place, by)) => raise_side(model, place, by, area),
        None => {}
    }
}

/// The bound of a tree after a change, by the walk from the box of that model, in a box that the walk changes.
fn bound_in(
    model: &IntModel,
    change: Change,
    tree: &Tree,
    area: &mut Area,
    scratch: &mut Scratch,
) -> Bound
    requires change { IsChange model.now change }
    requires limits { IsTreeWithin (plain tree.now) }
    requires fits { FitsModel model.now (plain tree.now) }
    requires area { length area.old ≡ length model.now.columns }
    requires scratch { FitsScratch model.now scratch.old }
    ensures bound { result ≡ tree_bound_of (changed_by model.now change) (plain tree.now) }
    ensures area { area.new ≡ box_of (changed_by model.now change) }
    ensures size { length area.new ≡ length model.now.columns }
    ensures scratch { column_count_of scratch.new ≡ column_count_of scratch.old }
{
    set_box_after(model, change, area);
    walk(model, change, tree, area, scratch)
}

/// The bound of a tree: the least bound of its leaves, each over the model's box cut by the splits above the leaf. Every feasible point of
/// the model costs at least this bound, and if it is infinite there is no such point, whatever made the tree and for whatever model.
///
/// The scratch may come from any model with the same number of columns: its box is set to the model's box first, and is that box again
/// at the end. Allocates nothing: the allocator makes the empty box that stands in while the walk has the scratch's. The recursion is as
/// deep as the tree.
pub fn tree_bound(alloc: Global, model: &IntModel, tree: &Tree, scratch: &mut Scratch) -> Bound
    requires limits { IsTreeWithin (plain tree.now) }
    requires fits { FitsModel model.now (plain tree.now) }
    requires scratch { FitsWalk (length model.now.columns) scratch.old }
    ensures bound { result ≡ tree_bound_of model.now (plain tree.now) }
    ensures holds { (x : List ℤ) → IsFeasible model.now x → IsAtMost result (cost model.now x) }
    ensures area { scratch.new.area ≡ box_of model.now }
    ensures scratch { FitsWalk (length model.now.columns) scratch.new }
{
    let mut area = mem::replace(&mut scratch.area, Area::from_vec(Vec::new(alloc)));
    let bound = bound_in(model, None, tree, &mut area, scratch);
    scratch.area = area;
    bound
}

/// The bound of a tree in the model in which the number at a place is raised by `by`, which may be negative. The place exists, and the
/// number stays within its limit. That model is never made. As `tree_bound`, but for the box of the scratch, which is then that of the
/// changed model.
pub fn tree_bound_at(
    alloc: Global,
    model: &IntModel,
    tree: &Tree,
    place: Place,
    by: i128,
    scratch: &mut Scratch,
) -> Bound
    requires limits { IsTreeWithin (plain tree.now) }
    requires fits { FitsModel model.now (plain tree.now) }
    requires exists { Exists model.now place }
    requires within { IsWithinLimit model.now place by }
    requires scratch { FitsWalk (length model.now.columns) scratch.old }
    ensures bound { result ≡ tree_bound_of (raised model.now place by) (plain tree.now) }
    ensures scratch { FitsWalk (length model.now.columns) scratch.new }
{
    let mut area = mem::replace(&mut scratch.area, Area::from_vec(Vec::new(alloc)));
    let bound = bound_in(model, Some((place, by)), tree, &mut area, scratch);
    scratch.area = area;
    bound
}
