//! The laws of the simplex, each as the contract of a call.
ghost use Rattle.simplex_laws.specs.Laws.{StepsCanBeMade, BestIsRight, BestIsLeast, EmptyIsRight, EmptyHasNoPoint, RunsStand, FinalsStay};
ghost use Rattle.simplex_laws.specs.Laws.{RunsHaveBegun};

/// The next step of a tableau that stands for a node can be made: its pivot is not 0, the variable that enters is not basic, the one that
/// leaves has the side to which it moves, and a variable that flips has both sides.
pub fn steps_can_be_made()
    ensures { StepsCanBeMade }
{}

/// Where the next step of a tableau says that it is final with a point, the point lies in the node's relaxation, and the dual value of the
/// reduced costs of the slacks is what the point costs.
pub fn best_is_right()
    ensures { BestIsRight }
{}

/// The point of such a tableau costs the least: no point of the relaxation costs less.
pub fn best_is_least()
    ensures { BestIsLeast }
{}

/// Where the next step of a tableau says that it is final by a row, the row's slack entries, or their negations, have a positive dual
/// value without a cost.
pub fn empty_is_right()
    ensures { EmptyIsRight }
{}

/// The relaxation of the node of such a tableau has no point.
pub fn empty_has_no_point()
    ensures { EmptyHasNoPoint }
{}

/// Each tableau that the steps reach from the start is one of its node.
pub fn runs_stand()
    ensures { RunsStand }
{}

/// A final tableau stays as it is, however many steps are asked for.
pub fn finals_stay()
    ensures { FinalsStay }
{}

/// Where there is a tableau after some steps, there is one after fewer: a run that is wide stays wide.
pub fn runs_have_begun()
    ensures { RunsHaveBegun }
{}
