//! Bounds are rounded inwards.

ghost use Rattle.std.specs.Prelude.{◌≡◌, ◌+◌, ◌^◌, ◌/◌, ◌<◌};
ghost use Rattle.decimals.specs.Decimals.{IsBelowLarge};
ghost use Rattle.mps_reader.specs.Internal.Rounding.{is_away, is_down as is_downward, rounded_by};

use decimals::signed;
use mps_defs::Number;

/// 10^20, which a Large number counts as.
const LARGE: u128 = 100_000_000_000_000_000_000;

/// Where a number goes to a whole number.
#[derive(Clone, Copy, Drop)]
pub enum Direction {
    Up,
    Down,
}

/// The whole part of `absolute / 10^decimals`, which is below 10^20.
fn whole_part(absolute: u128, decimals: u32) -> u128
    requires { absolute < 10 ^ (20 + decimals) }
    ensures value { result ≡ absolute / 10 ^ decimals }
    ensures small { result < 10 ^ 20 }
{
    match 10_u128.checked_pow(decimals) {
        Some(tens) => absolute / tens,
        None => 0,
    }
}

/// Whether a number goes away from 0.
fn goes_away(direction: Direction, units: i128) -> bool
    ensures { result ≡ is_away direction units }
{
    match direction {
        Direction::Up => units > 0,
        Direction::Down => units < 0,
    }
}

/// Whether a direction is down.
fn is_down(direction: Direction) -> bool
    ensures { result ≡ is_downward direction }
{
    match direction {
        Direction::Up => false,
        Direction::Down => true,
    }
}

/// A number rounded to a whole number.
pub fn rounded(direction: Direction, number: Number) -> i128
    requires { IsBelowLarge number }
    ensures { result ≡ rounded_by direction number }
{
    match number {
        Number::Dec { units, decimals } => {
            let absolute = units.unsigned_abs();
            let down = is_down(direction);
            if goes_away(direction, units) {
                signed(down, whole_part(absolute - 1, decimals) + 1)
            } else {
                signed(!down, whole_part(absolute, decimals))
            }
        }
        Number::Large { negative } => signed(negative, LARGE),
    }
}
