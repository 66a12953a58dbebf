//! Why a row sweep is not answered.

use branching::{BudgetWhat, OpenTree};
use ip_defs::Point;
use sweep_solves::Mades;

/// Why a row sweep is not answered. p/q is the step whose value is wanted next: q is 1. The finished solves before it are kept.
#[derive(Debug, Drop)]
pub enum RowStop {
    /// The solve at the step p was given `nodes` nodes and stopped at a limit, with the tree that it has grown and the best point that it
    /// has found. Where nothing was left for it, the limit is that of the nodes, the root of the tree is pending, and there is no point.
    Budget {
        what: BudgetWhat,
        p: i128,
        q: i128,
        grown: OpenTree,
        best: Option<Point>,
        nodes: u32,
        made: Mades,
    },
    /// 10,000 solves were made, and a further one is wanted at the step p.
    Solves {
        p: i128,
        q: i128,
        made: Mades,
    },
    /// Out of memory.
    Memory,
}
