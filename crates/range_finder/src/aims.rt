//! Aims of ranges.
use ip_defs::Point;

/// What is to hold in each changed model, as far as the tree proves it.
#[derive(Clone, Copy, Debug)]
pub enum Aim<'a> {
    /// The point stays optimal.
    StayBest(&'a Point),
    /// No feasible point costs less than this number, in units of the costs.
    Keep(i128),
}
