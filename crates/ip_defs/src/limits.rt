//! The limits of a program, and which of them a program exceeds.

/// What a limit applies to. Limits are tested in the order of `limits_of`: the three counts first, then all limits of one column
/// before those of the next column, then row by row, then the objective's name and the constant.
#[derive(Clone, Copy, Debug, PartialEq, Eq)]
pub enum What {
    /// The number of columns, at most 4,096.
    Columns,
    /// The number of rows, at most 1,024.
    Rows,
    /// The number of nonzero coefficients of all rows, at most 200,000.
    Entries,
    /// The length of a column's name, at most 255 bytes.
    Name,
    /// A cost, at most 2^40 in absolute value.
    Cost,
    /// The lower bound of a column, at most 2^24 in absolute value.
    Lower,
    /// The upper bound of a column, at most 2^24 in absolute value.
    Upper,
    /// The length of a row's name, at most 255 bytes.
    RowName,
    /// A coefficient, at most 2^40 in absolute value.
    Coef,
    /// A side of a row, at most 2^62 in absolute value.
    Side,
    /// The length of the objective's name, at most 255 bytes.
    Objective,
    /// The constant of the objective, at most 2^62 in absolute value.
    Constant,
}

/// A limit that is exceeded, with the number of the column or row that exceeds it. `index` is 0 for a limit of the whole program.
#[derive(Clone, Copy, Debug, PartialEq, Eq)]
pub struct Limit {
    pub what: What,
    pub index: u32,
}
