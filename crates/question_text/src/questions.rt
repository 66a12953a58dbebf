//! Questions about changed models.

use ip_defs::Listed;
use perturbation::{Datum, Edit, Number};

/// The edits of a question, in the order of their lines.
pub type Edits = Listed<Edit>;

/// What a range is to keep.
#[derive(Clone, Copy, Debug, PartialEq, Eq)]
pub enum AimText {
    /// The best point stays the best one.
    Best,
    /// The bound stays at least this number, in written units of the costs.
    Keep(Number),
}

/// A question about changed models.
#[derive(Debug, Drop)]
pub enum Question {
    /// What bound holds after these edits.
    Ask(Edits),
    /// How far one number may move.
    Range { datum: Datum, aim: AimText },
}

/// The questions of a file, in order.
pub type Questions = Listed<Question>;
