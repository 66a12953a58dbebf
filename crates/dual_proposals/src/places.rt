//! Numbers of a list by their places. A place past the end has 0, and is not written.
ghost use Rattle.std.specs.Prelude.{◌≡◌, length};

/// The number at a place.
#[inline]
pub fn number_at(numbers: &[i128], place: usize) -> i128 {
    match numbers.get(place) {
        Some(number) => *number,
        None => 0,
    }
}

/// Puts a number at a place.
#[inline]
pub fn put(numbers: &mut [i128], place: usize, number: i128)
    ensures { length numbers.new ≡ length numbers.old }
{
    match numbers.get_mut(place) {
        Some(old) => *old = number,
        None => {}
    }
}

/// The greatest absolute value.
pub fn greatest(numbers: &[i128]) -> u128 {
    let mut most = 0;
    for number in numbers {
        most = number.unsigned_abs().max(most);
    }
    most
}

/// How many more bits a number has than a limit.
#[inline]
pub fn excess_bits(number: u128, limit: u128) -> u32 {
    limit.leading_zeros().saturating_sub(number.leading_zeros())
}
