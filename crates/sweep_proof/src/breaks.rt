//! The breaks of the proof of a cost sweep: their count, their ends and their order.
ghost use Rattle.std.specs.Prelude.{◌≡◌, ◌+◌, ◌-◌, ◌<◌, ◌≤◌, length};
ghost use Rattle.ip_defs.specs.Lists.{first};
ghost use Rattle.sweep_proof.specs.CostRules.{counts_fit as counts_fit_of, cover_fault as cover_fault_of, ends_fit as ends_fit_of};
ghost use Rattle.sweep_proof.specs.CostRules.{is_below_break, is_number as is_number_of, rise_at as rise_at_of};
ghost use Rattle.sweep_proof.specs.CostSweeps.{break_at};

use crate::{CostSweep, SweepVerdict};
use frac128::{Frac, cmp};
use std::cmp::Ordering;

/// Whether there are as many breaks and trees as a number of points asks for.
fn counts_fit(points: usize, breaks: usize, trees: usize) -> bool
    requires { points ≤ 10000 }
    ensures { result ≡ counts_fit_of points breaks trees }
{
    if points == 0 {
        breaks == 2 && trees == 1
    } else {
        breaks == points + 1 && trees == points + 1
    }
}

/// Whether a break is a whole number.
fn is_number(number: Frac, whole: i64) -> bool
    ensures { result ≡ is_number_of number whole }
{
    number.num() == i128::from(whole) && number.den() == 1
}

/// The break of a number.
pub(crate) fn break_of(breaks: &[Frac], k: usize) -> Frac
    requires { k < length breaks.now }
    ensures { result ≡ break_at breaks.now k }
{
    breaks[k]
}

/// Whether the first break and the last are the ends of a sweep.
fn ends_fit(from: i64, to: i64, breaks: &[Frac]) -> bool
    requires { 1 ≤ length breaks.now }
    ensures { result ≡ ends_fit_of from to breaks.now }
{
    is_number(break_of(breaks, 0), from) && is_number(break_of(breaks, breaks.len() - 1), to)
}

/// Whether a break is below another.
fn is_below(a: Frac, b: Frac) -> bool
    ensures { result ≡ is_below_break a b }
{
    cmp(a, b) == Ordering::Less
}

/// The verdict where the break after a piece is not above the one before it.
fn rise_at(breaks: &[Frac], k: usize) -> Option<SweepVerdict>
    requires few { length breaks.now ≤ 10001 }
    requires inside { k + 1 < length breaks.now }
    ensures { result ≡ rise_at_of breaks.now k }
{
    if is_below(break_of(breaks, k), break_of(breaks, k + 1)) {
        None
    } else {
        Some(SweepVerdict::Cover { piece: k as u32 })
    }
}

/// The first piece whose breaks do not rise.
fn first_flat(breaks: &[Frac]) -> Option<SweepVerdict>
    requires some { 1 ≤ length breaks.now }
    requires few { length breaks.now ≤ 10001 }
    ensures { result ≡ first (rise_at_of breaks.now) (length breaks.now - 1) }
{
    for k in 0..breaks.len() - 1 {
        if let Some(fault) = rise_at(breaks, k) {
            return Some(fault);
        }
    }
    None
}

/// What is wrong with the counts of a proof, the ends of its breaks and their order.
pub(crate) fn cover_fault(from: i64, to: i64, sweep: &CostSweep) -> Option<SweepVerdict>
    requires { length sweep.now.points ≤ 10000 }
    ensures { result ≡ cover_fault_of from to sweep.now }
{
    let breaks = sweep.breaks.as_slice();
    let points = sweep.points.as_slice().len();
    if !counts_fit(points, breaks.len(), sweep.trees.as_slice().len()) {
        return Some(SweepVerdict::Cover { piece: 0 });
    }
    if !ends_fit(from, to, breaks) {
        return Some(SweepVerdict::Cover { piece: 0 });
    }
    first_flat(breaks)
}
