//! The laws of runs, each as the contract of a function that does nothing.
ghost use Rattle.sweep_pieces.specs.Laws.{FinishedSolvesAreSolves, RunsAreKept, RunsGoOn};

/// A finished proof for the model of a step is a solve there: what it claims is proved by its tree, and both are within the limits.
pub fn finished_solves_are_solves()
    ensures { FinishedSolvesAreSolves }
{}

/// A run that begins at the next step after others, with a value below the one of the last, makes one list of runs with them.
pub fn runs_go_on()
    ensures { RunsGoOn }
{}

/// Runs stay what they are where further solves are added to the list.
pub fn runs_are_kept()
    ensures { RunsAreKept }
{}
