//! The laws of proof trees, each as the contract of a function that does nothing.
ghost use Rattle.proof_tree.specs.Trees.{TreesBound};
ghost use Rattle.proof_tree.specs.Within.{LimitsAreExact, MisfitsAreTrue};
ghost use Rattle.proof_tree.specs.Verdicts.{ProofsAreTrue, VerdictsAreExact};

/// Each feasible point of a model costs at least the bound of any tree whose columns the model has, and where the bound is infinite
/// there is none.
pub fn trees_bound()
    ensures { TreesBound }
{}

/// The claim of a proved proof is true, whatever made it.
pub fn proofs_are_true()
    ensures { ProofsAreTrue }
{}

/// The verdict is Proved exactly where the proof is proved.
pub fn verdicts_are_exact()
    ensures { VerdictsAreExact }
{}

/// A tree exceeds no limit exactly where it is within the limits.
pub fn limits_are_exact()
    ensures { LimitsAreExact }
{}

/// A proof with no misfit fits: its point has a coordinate for each column, and its splits name columns of the model.
pub fn misfits_are_true()
    ensures { MisfitsAreTrue }
{}
