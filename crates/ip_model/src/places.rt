//! The places of the numbers of a program that an edit, a range or a direction names.

/// The place of a number in a program, by the number of its column or row; of a coefficient the row comes first. A place exists in a
/// program that has its column or row, and of a side where the row has that side. The place of a coefficient exists also where the
/// coefficient is 0.
#[derive(Clone, Copy, Debug, PartialEq, Eq)]
pub enum Place {
    /// The cost of a column, in units of the costs.
    Cost(u32),
    /// The low side of a row, in units of the row.
    Low(u32),
    /// The high side of a row, in units of the row.
    High(u32),
    /// The coefficient of a row and a column, in units of the row.
    Coef(u32, u32),
    /// The lower bound of a column.
    Lower(u32),
    /// The upper bound of a column.
    Upper(u32),
}
