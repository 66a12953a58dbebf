//! Lists of fractions.
use frac128::Frac;
use ip_defs::Listed;

/// A list of fractions: a point of a relaxation, one number for each column, or multipliers, one for each row.
pub type Fracs = Listed<Frac>;
