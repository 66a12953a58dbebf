//! The laws of duality, each as the contract of a function that does nothing.
ghost use Rattle.lp_duality.specs.Laws.{DualsAreScaled, CertificatesHaveTheirDuals, PricesBound, RaysBound};
ghost use Rattle.lp_duality.specs.Laws.{RelaxedWeakDuality, FeasiblePointsAreRelaxed};

/// A positive multiple of a divisor and multipliers has that multiple of their dual value.
pub fn duals_are_scaled()
    ensures { DualsAreScaled }
{}

/// The dual value of a certificate is that of its multipliers over the rational numbers, with 0 for the rows that it leaves out.
pub fn certificates_have_their_duals()
    ensures { CertificatesHaveTheirDuals }
{}

/// Where no column of a box is empty, the leaf bound of a certificate whose multipliers are its positive divisor times some prices is the
/// dual value of the prices, rounded up.
pub fn prices_bound()
    ensures { PricesBound }
{}

/// A certificate with the divisor 0 whose multipliers are a positive multiple of a ray has an infinite leaf bound where the dual value of
/// the ray is positive. This is the lemma of Farkas over boxes.
pub fn rays_bound()
    ensures { RaysBound }
{}

/// Weak duality over relaxations: a dual value is at most the divisor times the cost of each point of the relaxation.
pub fn relaxed_weak_duality()
    ensures { RelaxedWeakDuality }
{}

/// A feasible point that lies in a box is a point of the relaxation there, and costs the same.
pub fn feasible_points_are_relaxed()
    ensures { FeasiblePointsAreRelaxed }
{}
