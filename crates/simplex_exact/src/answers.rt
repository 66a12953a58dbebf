//! The answer of a linear program.
use lp_duality::Fracs;

/// The answer of the linear program of a node.
#[derive(Debug, Drop)]
pub enum LpAnswer {
    /// A least point of the relaxation, one number for each column, and one price for each row: the dual value of the prices is the
    /// point's cost. A price is here the dual price of a row; `price` of a tableau is the reduced cost of a variable, and that of a row's
    /// slack is the row's dual price.
    Best { point: Fracs, prices: Fracs },
    /// One multiplier for each row: their dual value without the cost is positive, so the relaxation has no point.
    Empty { ray: Fracs },
    /// The tableau after the allowed number of steps is not final.
    Stopped,
    /// A step or a number left the range of fractions.
    Wide,
}
