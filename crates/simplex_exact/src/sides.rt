//! The sides of a basic variable: whether its number is outside them, and the direction in which a variable can move.
ghost use Rattle.std.specs.Prelude.{◌≡◌};
ghost use Rattle.frac128.specs.Values.{value_of};
ghost use Rattle.simplex_laws.specs.Steps.{over_high as over_high_of, outside as outside_number, allows as allows_direction};
ghost use Rattle.simplex_laws.specs.Steps.{side_towards as side_for};

use crate::signs::is_below;
use tableau::{Frac, Rest};

/// That a basic variable has to fall, where its number is above its high side.
fn over_high(number: Frac, high: Option<i64>) -> Option<bool>
    ensures { result ≡ over_high_of (value_of number) high }
{
    match high {
        Some(high) => {
            if is_below(Frac::from_whole(high), number) {
                Some(false)
            } else {
                None
            }
        }
        None => None,
    }
}

/// Whether a basic variable has to rise, where its number is outside its sides.
pub fn outside(number: Frac, low: Option<i64>, high: Option<i64>) -> Option<bool>
    ensures { result ≡ outside_number (value_of number) low high }
{
    match low {
        Some(low) => {
            if is_below(number, Frac::from_whole(low)) {
                Some(true)
            } else {
                over_high(number, high)
            }
        }
        None => over_high(number, high),
    }
}

/// Whether a position lets a nonbasic variable rise, or fall.
#[inline]
pub fn allows(up: bool, rest: Rest) -> bool
    ensures { result ≡ allows_direction up rest }
{
    match rest {
        Rest::Basic => false,
        Rest::Low => up,
        Rest::High => !up,
        Rest::Zero => true,
    }
}

/// The side towards which a variable moves.
#[inline]
pub fn side_towards(up: bool) -> Rest
    ensures { result ≡ side_for up }
{
    if up { Rest::High } else { Rest::Low }
}
