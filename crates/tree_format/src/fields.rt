//! What the grammar of a tree file wants next, and what a number leads to.
ghost use Rattle.std.specs.Prelude.{◌≡◌, ◌+◌, ◌*◌, ◌^◌, ◌≤◌, IfOk, IfErr};
ghost use Rattle.tree_format.specs.Internal.Remaining.{IsFinal};
ghost use Rattle.tree_format.specs.Internal.Fields.{greatest_of, IsUpTo, IsAfter, IsFieldSound, IsClaimed, most_left, coordinate_field};
ghost use Rattle.tree_format.specs.Internal.Fields.{IsNextField};
ghost use Rattle.tree_format.specs.Internal.Fields.{multiplier_field};

use crate::values::signed;
use crate::{Token, TreeError};

/// What the next byte is part of. A count of coordinates or multipliers is of those after the one that is read.
#[derive(Clone, Copy)]
pub(crate) enum Field {
    /// The opening, of which some bytes are read.
    Opening { read: u32 },
    /// The byte of the claim.
    Claim,
    /// How many coordinates the claimed point has.
    CoordinateCount,
    /// A coordinate.
    Coordinate { more: u32 },
    /// The byte of a node, or the end of the file.
    Node,
    /// The divisor of a leaf.
    Divisor,
    /// How many multipliers the certificate has.
    MultiplierCount,
    /// The row of a multiplier, at least the least one.
    Row { more: u32, least: u32 },
    /// The value of a multiplier.
    Multiplier { more: u32, row: u32 },
    /// The column of a split.
    Column,
    /// The number of a split.
    Cut { col: u32 },
}

/// The greatest number that may stand in a field, or none where the field is no number.
pub(crate) fn greatest(field: Field) -> Option<u64>
    ensures { result ≡ greatest_of field }
{
    match field {
        Field::Opening { .. } | Field::Claim | Field::Node => None,
        Field::CoordinateCount => Some(4096),
        Field::Coordinate { .. } => Some(1 << 25),
        Field::Divisor => Some(1 << 36),
        Field::MultiplierCount => Some(1024),
        Field::Row { .. } => Some(1023),
        Field::Multiplier { .. } => Some(1 << 37),
        Field::Column => Some(4095),
        Field::Cut { .. } => Some(1 << 25),
    }
}

/// The field of the next coordinate, where some are still to come.
fn coordinates(count: u32) -> Field
    ensures field { result ≡ coordinate_field count }
    ensures next { IsNextField (6 * count) result }
{
    if count == 0 {
        Field::Node
    } else {
        Field::Coordinate { more: count - 1 }
    }
}

/// The field of the next multiplier, where some are still to come and the next row is at least a least one.
fn multipliers(count: u32, least: u32) -> Field
    ensures field { result ≡ multiplier_field count least }
    ensures next { IsNextField (12 * count) result }
{
    if count == 0 {
        Field::Node
    } else {
        Field::Row {
            more: count - 1,
            least,
        }
    }
}

/// What the row of a multiplier leads to.
fn after_row(more: u32, least: u32, start: u64, row: u32) -> Result<(Field, Token), TreeError>
    requires row { row ≤ 1023 }
    ensures after { IsAfter (Field.Row more least) start row result }
    ensures left { IfOk result (λ on. IsFieldSound on.0 × (most_left on.0 + 6 ≤ most_left (Field.Row more least))) }
    ensures final_fault { IfErr result (λ e. IsFinal e) }
    ensures claimed { IfOk result (λ on. IsClaimed on.0) }
{
    if row < least {
        Err(TreeError::Order { place: start })
    } else {
        Ok((Field::Multiplier { more, row }, Token::Nothing))
    }
}

/// What the value of a multiplier leads to.
fn after_multiplier(
    more: u32,
    row: u32,
    start: u64,
    value: u64,
) -> Result<(Field, Token), TreeError>
    requires row { row ≤ 1023 }
    requires value { value ≤ 2 ^ 37 }
    ensures after { IsAfter (Field.Multiplier more row) start value result }
    ensures left { IfOk result (λ on. IsFieldSound on.0 × (most_left on.0 + 6 ≤ most_left (Field.Multiplier more row))) }
    ensures final_fault { IfErr result (λ e. IsFinal e) }
    ensures claimed { IfOk result (λ on. IsClaimed on.0) }
{
    if value == 0 {
        return Err(TreeError::Zero { place: start });
    }
    let multiplier = signed(value);
    Ok((multipliers(more, row + 1), Token::Part { row, multiplier }))
}

/// What a number in a field leads to: the next field and the part that is complete now, or the fault of the number.
pub(crate) fn after(field: Field, start: u64, value: u64) -> Result<(Field, Token), TreeError>
    requires field { IsFieldSound field }
    requires value { IsUpTo (greatest_of field) value }
    ensures after { IsAfter field start value result }
    ensures left { IfOk result (λ on. IsFieldSound on.0 × (most_left on.0 + 6 ≤ most_left field)) }
    ensures final_fault { IfErr result (λ e. IsFinal e) }
    ensures claimed { IfOk result (λ on. IsClaimed on.0) }
{
    match field {
        Field::Opening { .. } => unreachable!(),
        Field::Claim => unreachable!(),
        Field::Node => unreachable!(),
        Field::CoordinateCount => Ok((coordinates(value as u32), Token::Nothing)),
        Field::Coordinate { more } => Ok((coordinates(more), Token::Coordinate(signed(value)))),
        Field::Divisor => Ok((Field::MultiplierCount, Token::LeafQ(value as i64))),
        Field::MultiplierCount => Ok((multipliers(value as u32, 0), Token::Parts(value as u32))),
        Field::Row { more, least } => after_row(more, least, start, value as u32),
        Field::Multiplier { more, row } => after_multiplier(more, row, start, value),
        Field::Column => Ok((Field::Cut { col: value as u32 }, Token::Nothing)),
        Field::Cut { col } => {
            let at = signed(value);
            Ok((Field::Node, Token::SplitAt { col, at }))
        }
    }
}
