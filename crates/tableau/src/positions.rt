//! The position of a variable: basic, or nonbasic at one of its sides.
/// The position of a variable: basic, or nonbasic at a side that it has, or at 0 where it has no side.
#[derive(Clone, Copy, Debug, PartialEq, Eq)]
pub enum Rest {
    Basic,
    Low,
    High,
    Zero,
}
