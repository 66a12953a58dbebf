//! Numbers cut to 64 bits without changing which limits they exceed.

ghost use Rattle.std.specs.Prelude.{◌≡◌, ◌-ℤ◌, ◌+ℤ◌, neg_ℤ, pos, unsigned_abs};
ghost use Rattle.mps_reader.specs.Internal.Clamps.{clamped as clamped_of};

/// The least number that exceeds every limit of a model.
const BEYOND: i128 = (1 << 62) + 1;

/// A number, or one of its sign that fits 64 bits and exceeds every limit too.
pub fn clamped(value: i128) -> i64
    ensures { result ≡ clamped_of value }
{
    value.clamp(-BEYOND, BEYOND) as i64
}

/// A number less the absolute value of another, clamped.
pub fn clamped_below(value: i128, range: i128) -> i64
    ensures { result ≡ clamped_of (value -ℤ pos (unsigned_abs range)) }
{
    if range < 0 {
        clamped(value.saturating_add(range))
    } else {
        clamped(value.saturating_sub(range))
    }
}

/// A number plus the absolute value of another, clamped.
pub fn clamped_above(value: i128, range: i128) -> i64
    ensures { result ≡ clamped_of (value +ℤ pos (unsigned_abs range)) }
{
    if range < 0 {
        clamped(value.saturating_sub(range))
    } else {
        clamped(value.saturating_add(range))
    }
}
