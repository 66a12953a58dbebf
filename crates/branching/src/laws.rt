//! The laws of outcomes, each as the contract of a function that does nothing.
ghost use Rattle.branching.specs.Outcomes.{OutcomesAreTrue};
ghost use Rattle.branching.specs.Sizes.{SearchesEnd, TreesAreSmall};

/// A right outcome is true: the point of `Best` is a least one, and where it is `Empty` no point is feasible.
pub fn outcomes_are_true()
    ensures { OutcomesAreTrue }
{}

/// A right outcome is `Best` or `Empty` wherever max(1, 2P - 1) is at most the limit of nodes and the width sum at most that of the
/// depth, where P is the number of whole points of the model's box.
pub fn searches_end()
    ensures { SearchesEnd }
{}

/// A tree of proper splits over the box of a model has at most max(1, 2P - 1) nodes, P the number of whole points of the box, and is
/// at most as deep as the box is wide.
pub fn trees_are_small()
    ensures { TreesAreSmall }
{}
