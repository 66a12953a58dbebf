//! The laws of allowable ranges, each as the contract of a function that does nothing.
ghost use Rattle.range_laws.specs.Laws.{EndsAreRanges, GoodChangesAreRuns, GoodChangesHold, NoneIsGoodBeyond, RangesAreUnique};
ghost use Rattle.range_laws.specs.Laws.{WideningKeepsPoints, WideningLowersBounds};

/// The good changes of a number, for a tree and an aim, are a run without gaps: between two good changes each one is good. Costs and
/// coefficients go by concavity of the bound of a leaf in the change; sides and bounds by widening.
pub fn good_changes_are_runs()
    ensures { GoodChangesAreRuns }
{}

/// Seen from a good change, none is good beyond one that is not, so the ends of a range can be found by halving.
pub fn none_is_good_beyond()
    ensures { NoneIsGoodBeyond }
{}

/// Two good changes around 0 whose outer neighbours are not good are the range.
pub fn ends_are_ranges()
    ensures { EndsAreRanges }
{}

/// A tree has one range for a place and an aim.
pub fn ranges_are_unique()
    ensures { RangesAreUnique }
{}

/// After a good change the aim holds: the point is optimal in the changed program, or none of its feasible points costs less than the
/// number that is kept.
pub fn good_changes_hold()
    ensures { GoodChangesHold }
{}

/// Where sides and bounds move outwards, the bound of no tree rises and each feasible point stays feasible.
pub fn widening()
    ensures bounds { WideningLowersBounds }
    ensures points { WideningKeepsPoints }
{}
