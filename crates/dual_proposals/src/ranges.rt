//! The sides of a variable: those of a column in a box, or those of a row for its slack.

/// The sides of a variable. A slack may have one side or none.
#[derive(Clone, Copy)]
pub struct Range {
    pub low: Option<i64>,
    pub high: Option<i64>,
}

impl Range {
    /// The range of a column.
    #[inline]
    pub fn between(low: i64, high: i64) -> Range {
        Range {
            low: Some(low),
            high: Some(high),
        }
    }

    /// The low or the high side, 0 where the variable has none there.
    #[inline]
    pub fn side(&self, at_high: bool) -> i128 {
        let side = if at_high { self.high } else { self.low };
        match side {
            Some(side) => i128::from(side),
            None => 0,
        }
    }

    /// Whether the variable has one value only.
    #[inline]
    pub fn is_fixed(&self) -> bool {
        match (self.low, self.high) {
            (Some(low), Some(high)) => low == high,
            _ => false,
        }
    }
}
