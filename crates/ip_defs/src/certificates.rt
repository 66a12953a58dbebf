//! Certificates of leaves and the bounds that they prove.

ghost use Rattle.ip_defs.specs.Certificates.{WeakDuality};

use crate::Multipliers;

/// A certificate of a leaf: dual multipliers `y` of rows over a common divisor `q`. With `q = 0` it is a dual ray.
#[derive(Debug, Drop)]
pub struct Cert {
    pub q: i64,
    pub y: Multipliers,
}

/// A lower bound on costs, in units of the costs. `Infinite` says that there is no feasible point.
#[derive(Clone, Copy, Debug, PartialEq, Eq)]
pub enum Bound {
    At(i128),
    Infinite,
}

/// Law, weak duality over boxes: every feasible point in a box costs at least the leaf bound of any certificate there, and where
/// the bound is infinite the box has no feasible point. It is the weak duality of linear programs, with the bounds of the box in
/// place of sign conditions on reduced costs.
pub fn weak_duality()
    ensures { WeakDuality }
{}
