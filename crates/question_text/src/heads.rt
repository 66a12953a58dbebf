//! The head of a sweep file: an interval of objectives, or a count of steps.

ghost use Rattle.std.specs.Prelude.{◌≡◌, ◌<◌, ◌^◌, [], IfSome, IfOk, map};
ghost use Rattle.mps_defs.specs.Numbers.{is_minus as is_minus_of, signed as signed_of};
ghost use Rattle.question_text.specs.Lines.{Answers};
ghost use Rattle.question_text.specs.SweepFiles.{cost_head as cost_head_of, cost_line as cost_line_of, head_in as head_in_of};
ghost use Rattle.question_text.specs.SweepFiles.{integer_of, is_interval as is_interval_of, is_whole as is_whole_of, moved_by};
ghost use Rattle.question_text.specs.SweepFiles.{rows_head as rows_head_of, rows_line as rows_line_of, steps_of};
ghost use Rattle.question_text.specs.SweepFiles.{without_minus as without_minus_of};

use crate::data::words_after;
use crate::errors::TextError;
use crate::sweeps::{Dirs, SideDirs, Sweep};
use crate::words::begins;
use decimals::{are_digits, value_from};
use std::alloc::Global;

/// The most steps, and the largest absolute value and width of an interval.
const MOST: u64 = 1_000_000;

/// Whether a text is 1 to 18 digits without a leading zero but in `0`.
fn is_whole(digits: &[u8]) -> bool
    ensures { result ≡ is_whole_of digits.now }
{
    match digits {
        [] => false,
        [_] => are_digits(digits),
        [first, ..] => *first != b'0' && digits.len() <= 18 && are_digits(digits),
    }
}

/// The number of digits.
fn whole(digits: &[u8]) -> Option<u64>
    ensures number { result ≡ steps_of digits.now }
    ensures small { IfSome result (λ n. n < 10 ^ 18) }
{
    if is_whole(digits) {
        Some(value_from(0, digits) as u64)
    } else {
        None
    }
}

/// Whether a text begins with a minus.
fn is_minus(text: &[u8]) -> bool
    ensures { result ≡ is_minus_of text.now }
{
    match text {
        [] => false,
        [first, ..] => *first == b'-',
    }
}

/// A text without a minus at its start.
fn without_minus(text: &[u8]) -> &[u8]
    ensures { result.now ≡ without_minus_of text.now }
{
    if is_minus(text) { &text[1..] } else { text }
}

/// A small absolute value with its sign.
fn signed(negative: bool, absolute: u64) -> i64
    requires { absolute < 10 ^ 18 }
    ensures { result ≡ signed_of negative absolute }
{
    if negative {
        -(absolute as i64)
    } else {
        absolute as i64
    }
}

/// The whole number that a text is, with an optional minus.
fn integer_in(text: &str) -> Option<i64>
    ensures { result ≡ integer_of text.now }
{
    let bytes = text.as_bytes();
    match whole(without_minus(bytes)) {
        Some(absolute) => Some(signed(is_minus(bytes), absolute)),
        None => None,
    }
}

/// Whether an interval has different ends in order, is near enough to 0 and not too wide.
fn is_interval(from: i64, to: i64) -> bool
    ensures { result ≡ is_interval_of from to }
{
    from < to
        && from.unsigned_abs() <= MOST
        && to.unsigned_abs() <= MOST
        && (to - from).unsigned_abs() <= MOST
}

/// The sweep of costs over an interval, without directions yet.
fn cost_head(
    alloc: Global,
    line: u32,
    from: Option<i64>,
    to: Option<i64>,
) -> Result<Sweep, TextError>
    ensures head { Answers (cost_head_of line from to) result }
    ensures still { IfOk result (λ s. moved_by s ≡ []) }
{
    match (from, to) {
        (Some(from), Some(to)) => if is_interval(from, to) {
            Ok(Sweep::Cost {
                from,
                to,
                dir: Dirs::from_vec(Vec::new(alloc)),
            })
        } else {
            Err(TextError::Interval { line })
        },
        _ => Err(TextError::Number { line }),
    }
}

/// The sweep of row sides over some steps, without directions yet.
fn rows_head(alloc: Global, line: u32, steps: Option<u64>) -> Result<Sweep, TextError>
    ensures head { Answers (rows_head_of line steps) result }
    ensures still { IfOk result (λ s. moved_by s ≡ []) }
{
    match steps {
        Some(steps) => if steps <= MOST {
            Ok(Sweep::Rows {
                steps: steps as u32,
                dir: SideDirs::from_vec(Vec::new(alloc)),
            })
        } else {
            Err(TextError::Interval { line })
        },
        None => Err(TextError::Number { line }),
    }
}

/// The sweep of costs whose interval is in the words after `cost`.
fn cost_line(alloc: Global, line: u32, words: &[&str]) -> Result<Sweep, TextError>
    ensures head { Answers (cost_line_of line (map (λ w. w.now) words.now)) result }
    ensures still { IfOk result (λ s. moved_by s ≡ []) }
{
    match words {
        [from, to] => cost_head(alloc, line, integer_in(from), integer_in(to)),
        _ => Err(TextError::Word { line }),
    }
}

/// The sweep of row sides whose steps are in the words after `rows`.
fn rows_line(alloc: Global, line: u32, words: &[&str]) -> Result<Sweep, TextError>
    ensures head { Answers (rows_line_of line (map (λ w. w.now) words.now)) result }
    ensures still { IfOk result (λ s. moved_by s ≡ []) }
{
    match words {
        [steps] => rows_head(alloc, line, whole(steps.as_bytes())),
        _ => Err(TextError::Word { line }),
    }
}

/// The sweep of a head, without directions yet.
pub fn head_in(alloc: Global, line: u32, words: &[&str]) -> Result<Sweep, TextError>
    ensures head { Answers (head_in_of line (map (λ w. w.now) words.now)) result }
    ensures still { IfOk result (λ s. moved_by s ≡ []) }
{
    if begins("cost", words) {
        return cost_line(alloc, line, words_after(words, 1));
    }
    if begins("rows", words) {
        return rows_line(alloc, line, words_after(words, 1));
    }
    Err(TextError::Word { line })
}
