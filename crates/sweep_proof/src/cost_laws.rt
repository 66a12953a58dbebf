//! The laws of cost sweeps, each as the contract of a function that does nothing.
ghost use Rattle.sweep_proof.specs.CostLaws.{CostRulesAreTrue, CostsAreLines, ExactCostSweepsHavePoints, PointsAreLeastBetween};

/// What a point costs in the model at p/q is a line in the parameter: q times the sum of its costs, and p times its slope.
pub fn costs_are_lines()
    ensures { CostsAreLines }
{}

/// A point that is optimal at two parameters is optimal at each one between.
pub fn points_are_least_between()
    ensures { PointsAreLeastBetween }
{}

/// A proof that the rules call proved is of an exact sweep.
pub fn cost_rules_are_true()
    ensures { CostRulesAreTrue }
{}

/// An exact sweep with a point has a piece for each rational parameter of its interval whose point is optimal there.
pub fn exact_cost_sweeps_have_points()
    ensures { ExactCostSweepsHavePoints }
{}
