//! What is next for a tableau.
use tableau::Rest;

/// What the simplex does next at a tableau: a pivot or a flip, or the tableau is final. The least-number rule is Bland's (New finite
/// pivoting rules for the simplex method, 1977), here with two sides for a variable.
#[derive(Clone, Copy, Debug, PartialEq, Eq)]
pub enum Next {
    /// A pivot at a row and a variable; the row's basic variable leaves to a position.
    Pivot { row: u32, var: u32, leaving: Rest },
    /// A nonbasic variable moves to its other side.
    Flip { var: u32 },
    /// The row's basic variable is outside its sides, and no variable can enter to bring it back. `up` says that it is below its low side.
    FinalRow { row: u32, up: bool },
    /// Each variable is within its sides, and none can lower the cost.
    FinalPoint,
}
