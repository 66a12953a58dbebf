//! The directions of a sweep, one line after another.

ghost use Rattle.std.specs.Prelude.{◌≡◌, ◌||◌, ◌∷◌, ◌++◌, [], true, IfOk, OnOk, map, string_bytes};
ghost use Rattle.ip_defs.specs.Lists.{when};
ghost use Rattle.mps_defs.specs.Lists.{is_among};
ghost use Rattle.mps_defs.specs.TextModels.{is_negative_number};
ghost use Rattle.question_text.specs.Lines.{Answers, allowed, due, line_of, made_of, with_number};
ghost use Rattle.question_text.specs.SweepFiles.{column_moved, cost_direction, direction_faults, is_positive_number, is_side as is_side_of};
ghost use Rattle.question_text.specs.SweepFiles.{joined as joined_of, moved_by, moves_inwards as moves_inwards_of, side_by as side_by_of};
ghost use Rattle.question_text.specs.SweepFiles.{side_direction, side_moved, side_name, side_number as side_number_of, with_directions};
ghost use Rattle.question_text.specs.Internal.Taking.{IsAdded, IsPushed};
ghost use Rattle.question_text.specs.declared.errors.TextError.TheVariants as Refused;

use crate::data::name_of;
use crate::errors::TextError;
use crate::sweeps::{Dirs, SideDirs, Sweep};
use decimals::read_number;
use indexmap::IndexSet;
use perturbation::{Datum, Number};
use std::alloc::{AllocError, Global};

/// A word and a name with a blank between them.
fn joined(alloc: Global, word: &str, row: &str) -> Result<String, AllocError>
    ensures { IfOk result (λ s. string_bytes s ≡ joined_of word.now row.now) }
{
    format!(in alloc; "{word} {row}")
}

/// Whether a number is above 0.
fn is_positive(number: Number) -> bool
    ensures { result ≡ is_positive_number number }
{
    match number {
        Number::Dec { units, .. } => units > 0,
        Number::Large { negative } => !negative,
    }
}

/// Whether a number is below 0.
fn is_negative(number: Number) -> bool
    ensures { result ≡ is_negative_number number }
{
    match number {
        Number::Dec { units, .. } => units < 0,
        Number::Large { negative } => negative,
    }
}

/// Whether a side moves inwards: a low side that rises, or a high side that falls.
fn moves_inwards(word: &str, number: Number) -> bool
    ensures { result ≡ moves_inwards_of word.now number }
{
    if word == "low" {
        is_positive(number)
    } else {
        is_negative(number)
    }
}

/// Whether a word names a side.
fn is_side(word: &str) -> bool
    ensures { result ≡ is_side_of word.now }
{
    word == "low" || word == "high"
}

/// The number of a side, in the words after its row.
fn side_number(line: u32, word: &str, words: &[&str]) -> Result<Number, TextError>
    ensures number { Answers (side_number_of line word.now (map (λ w. w.now) words.now)) result }
    ensures side { IfOk result (λ x. is_side_of word.now ≡ true) }
{
    let text = match words {
        [text] => *text,
        _ => return Err(TextError::Word { line }),
    };
    if !is_side(word) {
        return Err(TextError::Word { line });
    }
    match read_number(text) {
        Some(number) => if moves_inwards(word, number) {
            Err(TextError::Direction { line })
        } else {
            Ok(number)
        },
        None => Err(TextError::Number { line }),
    }
}

/// The side of a word and a row.
fn side_by(alloc: Global, word: &str, row: &str) -> Result<Datum, AllocError>
    ensures { IfOk result (λ d. d ≡ side_by_of word.now row.now) }
{
    let row = name_of(alloc, row)?;
    if word == "low" {
        Ok(Datum::Low { row })
    } else {
        Ok(Datum::High { row })
    }
}

/// Adds the name of what gets a direction, unless it has one.
fn add_name(moved: &mut IndexSet<String>, line: u32, name: String) -> Result<(), TextError>
    ensures name { Answers (allowed (when (is_among (string_bytes name) (map string_bytes moved.old.keys)) (Refused.Word line))) result }
    ensures added { OnOk result (map string_bytes moved.new.keys ≡ map string_bytes moved.old.keys ++ string_bytes name ∷ []) }
{
    if moved.get_index_of(name.as_str()).is_some() {
        return Err(TextError::Word { line });
    }
    match moved.insert(name) {
        Ok(_) => {}
        Err(_) => return Err(TextError::Memory),
    }
    Ok(())
}

/// Adds the direction of a column.
fn add_column(
    alloc: Global,
    dir: &mut Dirs,
    line: u32,
    name: &str,
    text: &str,
) -> Result<(), TextError>
    ensures named { OnOk result (map (λ d. d.0) dir.new ≡ map (λ d. d.0) dir.old ++ name.now ∷ []) }
    ensures added { IsPushed (with_number line (λ x. (name.now, x)) text.now) dir.old dir.new result }
{
    let number = match read_number(text) {
        Some(number) => number,
        None => return Err(TextError::Number { line }),
    };
    dir.push((name_of(alloc, name)?, number))?;
    Ok(())
}

/// Adds the direction of a side.
fn add_side(
    alloc: Global,
    dir: &mut SideDirs,
    line: u32,
    word: &str,
    row: &str,
    words: &[&str],
) -> Result<(), TextError>
    ensures named { OnOk result (map (λ d. side_name d.0) dir.new
        ≡ map (λ d. side_name d.0) dir.old ++ joined_of word.now row.now ∷ []) }
    ensures added { IsPushed
        (made_of (λ x. (side_by_of word.now row.now, x)) (side_number_of line word.now (map (λ w. w.now) words.now)))
        dir.old dir.new result }
{
    let number = match side_number(line, word, words) {
        Ok(number) => number,
        Err(error) => return Err(error),
    };
    dir.push((side_by(alloc, word, row)?, number))?;
    Ok(())
}

/// Adds a column and its direction, unless the column has one. The set has the names of the columns that move.
fn put_column(
    alloc: Global,
    dir: &mut Dirs,
    moved: &mut IndexSet<String>,
    line: u32,
    name: &str,
    text: &str,
) -> Result<(), TextError>
    requires moved { map string_bytes moved.old.keys ≡ map (λ d. d.0) dir.old }
    ensures moved { OnOk result (map string_bytes moved.new.keys ≡ map (λ d. d.0) dir.new) }
    ensures added { IsAdded (when (is_among name.now (map (λ d. d.0) dir.old)) (Refused.Word line))
        (with_number line (λ x. (name.now, x)) text.now) dir.old dir.new result }
{
    let own = String::from_str(alloc, name)?;
    match add_name(moved, line, own) {
        Ok(()) => add_column(alloc, dir, line, name, text),
        Err(error) => Err(error),
    }
}

/// Adds a side and its direction, unless the side has one. The set has the names of the sides that move.
fn put_side(
    alloc: Global,
    dir: &mut SideDirs,
    moved: &mut IndexSet<String>,
    line: u32,
    word: &str,
    row: &str,
    words: &[&str],
) -> Result<(), TextError>
    requires moved { map string_bytes moved.old.keys ≡ map (λ d. side_name d.0) dir.old }
    ensures moved { OnOk result (map string_bytes moved.new.keys ≡ map (λ d. side_name d.0) dir.new) }
    ensures added { IsAdded
        (when (is_among (joined_of word.now row.now) (map (λ d. side_name d.0) dir.old)) (Refused.Word line))
        (made_of (λ x. (side_by_of word.now row.now, x)) (side_number_of line word.now (map (λ w. w.now) words.now)))
        dir.old dir.new result }
{
    let own = joined(alloc, word, row)?;
    match add_name(moved, line, own) {
        Ok(()) => add_side(alloc, dir, line, word, row, words),
        Err(error) => Err(error),
    }
}

/// Adds the direction of a column in a line.
fn take_column(
    alloc: Global,
    dir: &mut Dirs,
    moved: &mut IndexSet<String>,
    line: u32,
    words: &[&str],
) -> Result<(), TextError>
    requires moved { map string_bytes moved.old.keys ≡ map (λ d. d.0) dir.old }
    ensures moved { OnOk result (map string_bytes moved.new.keys ≡ map (λ d. d.0) dir.new) }
    ensures added { IsAdded
        (when (is_among (column_moved (map (λ w. w.now) words.now)) (map (λ d. d.0) dir.old)) (Refused.Word line))
        (cost_direction line (map (λ w. w.now) words.now)) dir.old dir.new result }
{
    match words {
        [name, text] => put_column(alloc, dir, moved, line, name, text),
        _ => Err(TextError::Word { line }),
    }
}

/// Adds the direction of a side in a line.
fn take_side(
    alloc: Global,
    dir: &mut SideDirs,
    moved: &mut IndexSet<String>,
    line: u32,
    words: &[&str],
) -> Result<(), TextError>
    requires moved { map string_bytes moved.old.keys ≡ map (λ d. side_name d.0) dir.old }
    ensures moved { OnOk result (map string_bytes moved.new.keys ≡ map (λ d. side_name d.0) dir.new) }
    ensures added { IsAdded
        (when (is_among (side_moved (map (λ w. w.now) words.now)) (map (λ d. side_name d.0) dir.old)) (Refused.Word line))
        (side_direction line (map (λ w. w.now) words.now)) dir.old dir.new result }
{
    match words {
        [word, row, rest @ ..] => put_side(alloc, dir, moved, line, word, row, rest),
        _ => Err(TextError::Word { line }),
    }
}

/// A sweep with the direction of a line. The set has the names of the columns or sides that move.
pub fn with_direction(
    alloc: Global,
    sweep: Sweep,
    moved: &mut IndexSet<String>,
    line: u32,
    words: &[&str],
) -> Result<Sweep, TextError>
    requires moved { map string_bytes moved.old.keys ≡ moved_by sweep }
    ensures moved { IfOk result (λ s. map string_bytes moved.new.keys ≡ moved_by s) }
    ensures sweep { Answers (due (direction_faults sweep (line_of line (map (λ w. w.now) words.now)))
        (with_directions sweep (line_of line (map (λ w. w.now) words.now) ∷ []))) result }
{
    match sweep {
        Sweep::Cost { from, to, dir } => {
            let mut dir = dir;
            match take_column(alloc, &mut dir, moved, line, words) {
                Ok(()) => Ok(Sweep::Cost { from, to, dir }),
                Err(error) => Err(error),
            }
        }
        Sweep::Rows { steps, dir } => {
            let mut dir = dir;
            match take_side(alloc, &mut dir, moved, line, words) {
                Ok(()) => Ok(Sweep::Rows { steps, dir }),
                Err(error) => Err(error),
            }
        }
    }
}
