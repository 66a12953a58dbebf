//! The best point so far.
ghost use Rattle.std.specs.Prelude.{◌≡◌};
ghost use Rattle.branching.specs.Internal.Search.{cost_of, point_of};

use ip_defs::Point;

/// A point and what it costs.
pub type Found = Option<(Point, i128)>;

/// The point that was found, without its cost.
pub fn best_point(found: Found) -> Option<Point>
    ensures { result ≡ point_of found }
{
    found.map(|best| best.0)
}

/// What it costs, at which a search may cut.
pub fn best_cost(found: &Found) -> Option<i128>
    ensures { result ≡ cost_of found.now }
{
    match found {
        Some(best) => Some(best.1),
        None => None,
    }
}
