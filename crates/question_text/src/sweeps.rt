//! Sweeps: a line of changed models along an interval of objectives or along steps of row sides.

use ip_defs::{Listed, Name};
use perturbation::{Datum, Number};

/// The directions of columns: a column that is not named does not move.
pub type Dirs = Listed<(Name, Number)>;

/// The directions of row sides, each a low or a high side: a side that is not named does not move.
pub type SideDirs = Listed<(Datum, Number)>;

/// A sweep over changed models.
#[derive(Debug, Drop)]
pub enum Sweep {
    /// The costs plus `p` times the direction, for every `p` between `from` and `to`.
    Cost { from: i64, to: i64, dir: Dirs },
    /// The row sides plus `t` times the direction, for every whole `t` from 0 to `steps`.
    Rows { steps: u32, dir: SideDirs },
}
