//! The parts of a numeral: what stands before and after its point and its exponent mark.

ghost use Rattle.std.specs.Prelude.{◌≡◌, ◌+◌, ◌*◌, ◌^◌, ◌<◌, ◌≤◌, true, length, position};
ghost use Rattle.std.specs.List.{list_all, list_any, before_first, after_first};
ghost use Rattle.mps_defs.specs.Numbers.{is_digit, is_point, is_exponent_mark, is_minus as is_minus_of, without_sign as without_sign_of};
ghost use Rattle.mps_defs.specs.Numbers.{value_from as value_from_of, is_exponent as is_exponent_of, whole_part as whole_part_of};
ghost use Rattle.mps_defs.specs.Numbers.{fraction_part as fraction_part_of, exponent_part as exponent_part_of, is_numeral as is_numeral_of};
ghost use Rattle.mps_defs.specs.Numbers.{is_infinity as is_infinity_of};

/// The text without one sign at its start.
pub fn without_sign(text: &[u8]) -> &[u8]
    ensures { result.now ≡ without_sign_of text.now }
{
    match text {
        [] => text,
        [b, unsigned @ ..] => if *b == b'+' || *b == b'-' {
            unsigned
        } else {
            text
        },
    }
}

/// Whether the text begins with a minus.
pub fn is_minus(text: &[u8]) -> bool
    ensures { result ≡ is_minus_of text.now }
{
    match text {
        [] => false,
        [b, ..] => *b == b'-',
    }
}

/// Whether each byte is a digit.
pub fn are_digits(text: &[u8]) -> bool
    ensures { result ≡ list_all is_digit text.now }
{
    text.iter().all(|b| 48 <= *b && *b <= 57)
}

/// The place of the exponent mark.
fn mark_place(text: &[u8]) -> Option<usize>
    ensures { result ≡ position is_exponent_mark text.now }
{
    text.iter().position(|b| *b == b'e' || *b == b'E')
}

/// Whether there is an exponent mark.
fn has_mark(text: &[u8]) -> bool
    ensures { result ≡ list_any is_exponent_mark text.now }
{
    text.iter().any(|b| *b == b'e' || *b == b'E')
}

/// The place of the point.
fn point_place(text: &[u8]) -> Option<usize>
    ensures { result ≡ position is_point text.now }
{
    text.iter().position(|b| *b == b'.')
}

/// What stands before the exponent mark.
fn before_mark(body: &[u8]) -> &[u8]
    ensures { result.now ≡ before_first is_exponent_mark body.now }
{
    match mark_place(body) {
        Some(i) => &body[..i],
        None => body,
    }
}

/// What stands after the exponent mark.
pub fn exponent_part(body: &[u8]) -> &[u8]
    ensures { result.now ≡ exponent_part_of body.now }
{
    match mark_place(body) {
        Some(i) => &body[i + 1..],
        None => &body[body.len()..],
    }
}

/// What stands before the point.
fn before_point(digits: &[u8]) -> &[u8]
    ensures { result.now ≡ before_first is_point digits.now }
{
    match point_place(digits) {
        Some(i) => &digits[..i],
        None => digits,
    }
}

/// What stands after the point.
fn after_point(digits: &[u8]) -> &[u8]
    ensures { result.now ≡ after_first is_point digits.now }
{
    match point_place(digits) {
        Some(i) => &digits[i + 1..],
        None => &digits[digits.len()..],
    }
}

/// The digits before the point of a numeral without its sign.
pub fn whole_part(body: &[u8]) -> &[u8]
    ensures { result.now ≡ whole_part_of body.now }
{
    before_point(before_mark(body))
}

/// The digits after the point of a numeral without its sign.
pub fn fraction_part(body: &[u8]) -> &[u8]
    ensures { result.now ≡ fraction_part_of body.now }
{
    after_point(before_mark(body))
}

/// Whether the text is one to four digits after an optional sign.
fn is_exponent(part: &[u8]) -> bool
    ensures { result ≡ is_exponent_of part.now }
{
    let digits = without_sign(part);
    1 <= digits.len() && digits.len() <= 4 && are_digits(digits)
}

/// Whether the text is digits with an optional point, and an exponent where there is a mark.
pub fn is_numeral(body: &[u8]) -> bool
    ensures { result ≡ is_numeral_of body.now }
{
    let whole = whole_part(body);
    let fraction = fraction_part(body);
    let has_digits = !whole.is_empty() || !fraction.is_empty();
    let has_exponent = !has_mark(body) || is_exponent(exponent_part(body));
    are_digits(whole) && are_digits(fraction) && has_digits && has_exponent
}

/// Whether the text is a word for infinity.
pub fn is_infinity(body: &[u8]) -> bool
    ensures { result ≡ is_infinity_of body.now }
{
    body.eq_ignore_ascii_case(b"inf") || body.eq_ignore_ascii_case(b"infinity")
}

/// The number that digits write after those of `start`.
pub fn value_from(start: u128, digits: &[u8]) -> u128
    requires digits { list_all is_digit digits.now ≡ true }
    requires fits { (start + 1) * 10 ^ length digits.now < 2 ^ 128 }
    ensures value { result ≡ value_from_of start digits.now }
    ensures small { result + 1 ≤ (start + 1) * 10 ^ length digits.now }
{
    let mut value = start;
    for digit in digits {
        value = 10 * value + u128::from(*digit - b'0');
    }
    value
}
