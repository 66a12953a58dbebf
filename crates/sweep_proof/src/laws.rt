//! The laws of row sweeps, each as the contract of a function that does nothing.
ghost use Rattle.sweep_proof.specs.Laws.{ExactSweepsHaveValues, LaterStepsAreWider, RowRulesAreTrue};

/// Where each low side moves down or stays and each high side moves up or stays, the model of a later step is the wider one: so its
/// optimal value is no higher, and what a tree bounds at a later step it bounds at each step before.
pub fn later_steps_are_wider()
    ensures { LaterStepsAreWider }
{}

/// Along such a direction a proof that the rules call proved is of an exact sweep.
pub fn row_rules_are_true()
    ensures { RowRulesAreTrue }
{}

/// An exact sweep has a piece for each step whose claim is the optimal value there.
pub fn exact_sweeps_have_values()
    ensures { ExactSweepsHaveValues }
{}
