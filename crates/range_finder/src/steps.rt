//! Changes as steps up or down, and how many there are up to the limit of a number.
ghost use Rattle.std.specs.Prelude.{◌≡◌, ◌+◌, ◌<◌, ◌≤◌, ◌^◌, ℕ, pos};
ghost use Rattle.ip_defs.specs.Limits.{IsWithinLimits};
ghost use Rattle.ip_model.specs.Places.{Exists, limit_of};
ghost use Rattle.leaf_cert.specs.Changes.{IsWithinLimit};
ghost use Rattle.range_finder.specs.Internal.Asked.{steps_by};

use ip_defs::Parts;
use ip_model::Place;
use perturbation::number_at;

/// The change by a number of steps up or down.
pub fn change_of(up: bool, steps: u64) -> i128
    ensures { result ≡ steps_by up steps }
{
    if up {
        i128::from(steps)
    } else {
        -i128::from(steps)
    }
}

/// The limit of the absolute value of the number at a place.
fn limit(place: Place) -> i128
    ensures { result ≡ pos (limit_of place) }
{
    match place {
        Place::Cost(_) | Place::Coef(_, _) => 1 << 40,
        Place::Low(_) | Place::High(_) => 1 << 62,
        Place::Lower(_) | Place::Upper(_) => 1 << 24,
    }
}

/// The most steps up or down that the number at a place can take within its limit.
pub fn steps_to_limit(parts: &Parts, place: Place, up: bool) -> u64
    requires limits { IsWithinLimits parts.now }
    requires exists { Exists parts.now place }
    ensures within { (k : ℕ) → k ≤ result → IsWithinLimit parts.now place (steps_by up k) }
    ensures beyond { ¬ IsWithinLimit parts.now place (steps_by up (result + 1)) }
{
    let number = i128::from(number_at(parts, place));
    let left = if up {
        limit(place) - number
    } else {
        limit(place) + number
    };
    left as u64
}

/// A number of steps strictly between a good one and a bad one: where steps grow, the square of the one after the good one, so that the ends
/// of narrow ranges are found in few tries; where that is too far, or steps do not grow, the middle.
pub fn between(good: u64, bad: u64, grows: bool) -> u64
    requires { good + 1 < bad }
    ensures above { good < result }
    ensures below { result < bad }
{
    let square = (good + 1).saturating_mul(good + 1);
    if grows && square < bad {
        square
    } else {
        good + (bad - good) / 2
    }
}
