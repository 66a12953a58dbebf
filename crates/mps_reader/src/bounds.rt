//! Lines of BOUNDS: what each says of the lower and the upper bound of its column.

ghost use Rattle.std.specs.Prelude.{◌≡◌, ℕ, ◌||◌, ◌&&◌, [], List, None, Some, true, false, codes, map, not, slice_get, slice_set, IfSome};
ghost use Rattle.std.specs.Option.{MatchOption};
ghost use Rattle.decimals.specs.Decimals.{IsBelowLarge};
ghost use Rattle.mps_defs.specs.Lists.{is_among, last_of, where_true};
ghost use Rattle.mps_defs.specs.Numbers.{is_large, number_of};
ghost use Rattle.mps_defs.specs.Records.{Line, bound_kind, takes_none, takes_number as takes_number_of, words_of, item};
ghost use Rattle.mps_defs.specs.TextModels.{is_negative_number, no_number, rounded_down as rounded_down_of, rounded_up as rounded_up_of};
ghost use Rattle.mps_reader.specs.Internal.BoundWords.{IsBound, Says, after_bound as after_bound_of, bound_word, has_right_count};
ghost use Rattle.mps_reader.specs.Internal.BoundWords.{integer_words, lower_of, numbered_words, plain_words, upper_of};
ghost use Rattle.mps_reader.specs.declared.draft.ColumnDraft.{ColumnDraft as ColumnDraftOf};
ghost use Rattle.mps_reader.specs.Internal.Progress.{IsTaken, Stands};

use crate::draft::{ColumnDraft, Draft, Taken, UpperBound};
use crate::kept_sets::keep_set;
use crate::rounding::{Direction, rounded};
use decimals::read_number;
use mps_defs::{MpsError, Number};
use std::alloc::Global;

/// The kind of a bound.
#[derive(Clone, Copy, Debug, PartialEq, Eq)]
pub enum BoundKind {
    /// LO
    Lower,
    /// LI
    LowerInteger,
    /// UP
    Upper,
    /// UI
    UpperInteger,
    /// FX
    Fixed,
    /// FR
    Free,
    /// MI
    NoLower,
    /// PL
    NoUpper,
    /// BV
    Binary,
}

/// The fields of a line of BOUNDS after its kind. The set is empty where none is named. The text is that of the number, where the
/// kind takes one.
#[derive(Clone, Copy)]
struct BoundFields<'a> {
    set: &'a str,
    column: &'a str,
    text: &'a str,
}

/// The kind of a bound that a word names.
fn kind_of(word: &str) -> Option<BoundKind>
    ensures { MatchOption result ((is_among word.now numbered_words
        || is_among word.now plain_words) ≡ false) (λ k. bound_word k ≡ word.now) }
{
    match word {
        "LO" => Some(BoundKind::Lower),
        "LI" => Some(BoundKind::LowerInteger),
        "UP" => Some(BoundKind::Upper),
        "UI" => Some(BoundKind::UpperInteger),
        "FX" => Some(BoundKind::Fixed),
        "FR" => Some(BoundKind::Free),
        "MI" => Some(BoundKind::NoLower),
        "PL" => Some(BoundKind::NoUpper),
        "BV" => Some(BoundKind::Binary),
        _ => None,
    }
}

/// Whether a kind takes a number.
fn takes_number(kind: BoundKind) -> bool
    ensures { result ≡ is_among (bound_word kind) numbered_words }
{
    match kind {
        BoundKind::Lower
        | BoundKind::LowerInteger
        | BoundKind::Upper
        | BoundKind::UpperInteger
        | BoundKind::Fixed => true,
        BoundKind::Free | BoundKind::NoLower | BoundKind::NoUpper | BoundKind::Binary => false,
    }
}

/// Whether a bound of a kind names a column integer.
fn names_integer(kind: BoundKind) -> bool
    ensures { result ≡ is_among (bound_word kind) integer_words }
{
    match kind {
        BoundKind::LowerInteger | BoundKind::UpperInteger | BoundKind::Binary => true,
        BoundKind::Lower
        | BoundKind::Upper
        | BoundKind::Fixed
        | BoundKind::Free
        | BoundKind::NoLower
        | BoundKind::NoUpper => false,
    }
}

/// A number as a lower bound, rounded up: none where it is Large and negative.
fn lower_side(number: Number) -> Option<i128>
    requires { IsBelowLarge number }
    ensures { result ≡ where_true (not (is_large number && is_negative_number number)) (rounded_up_of number) }
{
    match number {
        Number::Large { negative: true } => None,
        _ => Some(rounded(Direction::Up, number)),
    }
}

/// A number as an upper bound, rounded down: none where it is Large and positive.
fn upper_side(number: Number) -> Option<i128>
    requires { IsBelowLarge number }
    ensures { result ≡ where_true (not (is_large number && not (is_negative_number number))) (rounded_down_of number) }
{
    match number {
        Number::Large { negative: false } => None,
        _ => Some(rounded(Direction::Down, number)),
    }
}

/// Whether a number is negative.
fn is_negative(number: Number) -> bool
    ensures { result ≡ is_negative_number number }
{
    match number {
        Number::Dec { units, .. } => units < 0,
        Number::Large { negative } => negative,
    }
}

/// The lower bound that a line of a kind gives, where it gives one.
fn lower_said(kind: BoundKind, number: Number) -> Option<Option<i128>>
    requires { IsBelowLarge number }
    ensures { result ≡ lower_of (bound_word kind) number }
{
    match kind {
        BoundKind::Lower | BoundKind::LowerInteger | BoundKind::Fixed => Some(lower_side(number)),
        BoundKind::Free | BoundKind::NoLower => Some(None),
        BoundKind::Binary => Some(Some(0)),
        BoundKind::Upper | BoundKind::UpperInteger | BoundKind::NoUpper => None,
    }
}

/// The upper bound that a line of a kind gives, where it gives one.
fn upper_said(kind: BoundKind, number: Number) -> Option<UpperBound>
    requires { IsBelowLarge number }
    ensures { result ≡ upper_of (bound_word kind) number }
{
    match kind {
        BoundKind::Upper | BoundKind::UpperInteger => Some(UpperBound {
            side: upper_side(number),
            is_negative: is_negative(number),
        }),
        BoundKind::Fixed => Some(UpperBound {
            side: upper_side(number),
            is_negative: false,
        }),
        BoundKind::Free | BoundKind::NoUpper => Some(UpperBound {
            side: None,
            is_negative: false,
        }),
        BoundKind::Binary => Some(UpperBound {
            side: Some(1),
            is_negative: false,
        }),
        BoundKind::Lower | BoundKind::LowerInteger | BoundKind::NoLower => None,
    }
}

/// What a bound of a kind says of its column; the number counts where the kind takes one.
fn said_by(kind: BoundKind, number: Number) -> ColumnDraft
    requires { IsBelowLarge number }
    ensures { Says (bound_word kind) number result }
{
    ColumnDraft {
        is_integer: names_integer(kind),
        lower: lower_said(kind, number),
        upper: upper_said(kind, number),
    }
}

/// A column after one more bound.
fn after_bound(column: ColumnDraft, said: ColumnDraft) -> ColumnDraft
    ensures { result ≡ after_bound_of column said }
{
    ColumnDraft {
        is_integer: column.is_integer || said.is_integer,
        lower: said.lower.or(column.lower),
        upper: said.upper.or(column.upper),
    }
}

/// The number of a bound, 0 where its kind takes none. `None` means that it takes one and the text is no number.
fn number_in(kind: BoundKind, text: &str) -> Option<Number>
    ensures none { is_among (bound_word kind) numbered_words ≡ true → result ≡ number_of text.now }
    ensures some { is_among (bound_word kind) numbered_words ≡ false → result ≡ Some no_number }
    ensures below { IfSome result IsBelowLarge }
{
    if takes_number(kind) {
        read_number(text)
    } else {
        Some(Number::Dec {
            units: 0,
            decimals: 0,
        })
    }
}

/// The fields of a line of BOUNDS after its kind. `None` means that the kind does not have that number of fields.
fn fields_after<'a>(kind: BoundKind, fields: &[&'a str]) -> Option<BoundFields<'a>>
    ensures { (l : Line) → bound_kind l ≡ bound_word kind → l.fields ≡ map (λ f. f.now) fields.now
        → MatchOption result (has_right_count l ≡ false) (λ b. IsBound l kind b.set.now b.column.now b.text.now) }
{
    match (takes_number(kind), fields) {
        (true, [_, column, text]) => Some(BoundFields {
            set: "",
            column,
            text,
        }),
        (true, [_, set, column, text]) => Some(BoundFields { set, column, text }),
        (false, [_, column]) => Some(BoundFields {
            set: "",
            column,
            text: column,
        }),
        (false, [_, set, column]) => Some(BoundFields {
            set,
            column,
            text: column,
        }),
        (false, [_, set, column, text]) => Some(BoundFields { set, column, text }),
        _ => None,
    }
}

/// The kind of a line of BOUNDS: its first field.
fn kind_in(fields: &[&str]) -> Option<BoundKind>
    ensures { (l : Line) → l.fields ≡ map (λ f. f.now) fields.now
        → MatchOption result ((takes_number_of l || takes_none l) ≡ false) (λ k. bound_kind l ≡ bound_word k) }
{
    match fields {
        [] => None,
        [word, ..] => kind_of(word),
    }
}

/// Notes a bound of a column, where there is one of that number.
fn note_bound(columns: &mut Vec<ColumnDraft>, column: usize, said: ColumnDraft)
    ensures { (c : ColumnDraftOf) → slice_get columns.old.items column ≡ Some c
        → columns.new.items ≡ slice_set columns.old.items column (after_bound_of c said) }
{
    if let Some(before) = columns.get_mut(column) {
        *before = after_bound(*before, said);
    }
}

/// Takes a bound of a right kind. `UnknownColumn` comes first, then `Number`.
fn take_bound(
    alloc: Global,
    draft: &mut Draft,
    line: u32,
    kind: BoundKind,
    bound: BoundFields<'_>,
) -> Taken
    ensures { (before : List Line) (fields : List (List ℕ)) → Stands before draft.old
        → is_among (codes "ROWS") (words_of before) ≡ true → is_among (codes "BOUNDS") (words_of before) ≡ true
        → IsBound (item (codes "BOUNDS") line fields) kind bound.entry.set.now bound.entry.column.now bound.entry.text.now
        → IsTaken before (item (codes "BOUNDS") line fields) draft.new result }
{
    let column = match draft.columns.names.get_index_of(bound.column) {
        Some(column) => column,
        None => return Err(MpsError::UnknownColumn { line }),
    };
    let number = match number_in(kind, bound.text) {
        Some(number) => number,
        None => return Err(MpsError::Number { line }),
    };
    if keep_set(alloc, &mut draft.sets.bounds, bound.set)? {
        note_bound(&mut draft.columns.columns, column, said_by(kind, number));
    }
    Ok(())
}

/// Takes a line of BOUNDS: a kind, a set where one is named, a column, and a number where the kind takes one. `BoundKind` comes first,
/// then `FieldCount`, then the faults of the bound.
pub fn take_bound_line(alloc: Global, draft: &mut Draft, line: u32, fields: &[&str]) -> Taken
    ensures { (before : List Line) → Stands before draft.old → is_among (codes "ROWS") (words_of before) ≡ true
        → last_of (words_of before) ≡ Some (codes "BOUNDS")
        → IsTaken before (item (codes "BOUNDS") line (map (λ f. f.now) fields.now)) draft.new result }
{
    let kind = match kind_in(fields) {
        Some(kind) => kind,
        None => return Err(MpsError::BoundKind { line }),
    };
    let bound = match fields_after(kind, fields) {
        Some(bound) => bound,
        None => return Err(MpsError::FieldCount { line }),
    };
    take_bound(alloc, draft, line, kind, bound)
}
