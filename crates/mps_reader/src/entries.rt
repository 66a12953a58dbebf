//! Entries of rows: numbers of columns, right sides and ranges.

ghost use Rattle.std.specs.Prelude.{ℕ, ◌≡◌, ◌==◌, ◌++◌, nat_lt, false, List, OnOk, map, string_bytes, bytes_eq, codes};
ghost use Rattle.std.specs.Option.{option_map_or};
ghost use Rattle.mps_defs.specs.Lists.{last_of};
ghost use Rattle.ip_defs.specs.Lists.{when};
ghost use Rattle.mps_defs.specs.Numbers.{decimals_of as decimals_in};
ghost use Rattle.mps_defs.specs.Records.{Line, Entry, entries_from, entry_of};
ghost use Rattle.mps_defs.specs.declared.reading.MpsError.TheVariants as Out;
ghost use Rattle.mps_reader.specs.Internal.Progress.{kind_word};
ghost use Rattle.mps_reader.specs.Internal.Taking.{IsDone, IsPut, IsRead, IsEntryTaken, AreEntriesTaken, RowsHave, Owns, counts_on};
ghost use Rattle.mps_reader.specs.Internal.Taking.{has_number};

use crate::draft::{RowDraft, RowTable, Taken, is_at};
use decimals::read_number;
use mps_defs::{MpsError, Number};
use std::alloc::AllocError;

/// Whose numbers a line writes: those of the last column, by its number, or those of a set of RHS or RANGES, which is the kept one
/// or not.
#[derive(Clone, Copy, Debug)]
pub enum Owner {
    Column(usize),
    RightSides(bool),
    Ranges(bool),
}

/// The decimals of a number, none of a Large one.
fn decimals_of(number: Number) -> u32
    ensures { result ≡ decimals_in number }
{
    match number {
        Number::Dec { units: _, decimals } => decimals,
        Number::Large { negative: _ } => 0,
    }
}

impl Owner {
    /// Whether an entry on a row counts: its set is the kept one, and its row is not a dropped one, and in RANGES not the objective.
    fn keeps(self, is_free: bool, is_objective: bool) -> bool
        ensures { result ≡ counts_on self is_free is_objective }
    {
        match self {
            Owner::Column(_) => !is_free || is_objective,
            Owner::RightSides(is_kept) => is_kept && (!is_free || is_objective),
            Owner::Ranges(is_kept) => is_kept && !is_free,
        }
    }
}

impl RowDraft {
    /// Whether the row has a number of the last column.
    fn has_column(&self, column: usize) -> bool
        ensures { result ≡ option_map_or (λ p. p.0 == column) (last_of self.now.entries.items) false }
    {
        match self.entries.last() {
            Some((last, _)) => *last == column,
            None => false,
        }
    }

    /// Whether the row has a number of this owner.
    fn has(&self, owner: Owner) -> bool
        ensures { result ≡ has_number owner self.now }
    {
        match owner {
            Owner::Column(column) => self.has_column(column),
            Owner::RightSides(_) => self.right_side.is_some(),
            Owner::Ranges(_) => self.range.is_some(),
        }
    }

    /// Writes a number of an owner.
    fn put(&mut self, owner: Owner, number: Number) -> Result<(), AllocError>
        ensures { OnOk result (IsPut owner number self.old self.new) }
    {
        match owner {
            Owner::Column(column) => self.entries.push((column, number))?,
            Owner::RightSides(_) => self.right_side = Some(number),
            Owner::Ranges(_) => self.range = Some(number),
        }
        self.decimals = self.decimals.max(decimals_of(number));
        Ok(())
    }

    /// Writes a number that counts.
    fn write(&mut self, owner: Owner, line: u32, number: Number) -> Taken
        ensures { IsDone (when (nat_lt 9 (decimals_in number)) (Out.Digits line)
            ++ when (has_number owner self.old) (Out.TwiceEntry line)) (λ _. IsPut owner number self.old self.new) result }
    {
        if decimals_of(number) > 9 {
            return Err(MpsError::Digits { line });
        }
        if self.has(owner) {
            return Err(MpsError::TwiceEntry { line });
        }
        self.put(owner, number)?;
        Ok(())
    }
}

/// The number of a row and the number that is written for it.
fn read_entry(
    rows: &RowTable,
    line: u32,
    row: &str,
    text: &str,
) -> Result<(usize, Number), MpsError>
    ensures { IsRead (map string_bytes rows.now.names.keys) line row.now text.now result }
{
    match rows.names.get_index_of(row) {
        Some(place) => {
            match read_number(text) {
                Some(number) => Ok((place, number)),
                None => Err(MpsError::Number { line }),
            }
        }
        None => Err(MpsError::UnknownRow { line }),
    }
}

/// Takes an entry: UnknownRow where no row has that name, Number where the text is none; and where it counts Digits where it has more
/// than nine decimals, and TwiceEntry where it was written before.
pub fn take_entry(rows: &mut RowTable, owner: Owner, line: u32, row: &str, text: &str) -> Taken
    ensures { (ls : List Line) (es : List Entry) (name : List ℕ) → RowsHave ls owner es rows.old → Owns ls owner name
        → IsEntryTaken ls owner es rows.new (entry_of line name row.now text.now) result }
{
    let (place, number) = read_entry(rows, line, row, text)?;
    let is_objective = is_at(rows.objective, place);
    match rows.rows.get_mut(place) {
        Some(row) => {
            if owner.keeps(row.kind.is_free(), is_objective) {
                row.write(owner, line, number)
            } else {
                Ok(())
            }
        }
        None => Err(MpsError::UnknownRow { line }),
    }
}

/// Takes one or two entries.
pub fn take_entries(rows: &mut RowTable, owner: Owner, line: u32, fields: &[&str]) -> Taken
    ensures { (ls : List Line) (es : List Entry) (name : List ℕ) → RowsHave ls owner es rows.old → Owns ls owner name
        → AreEntriesTaken ls owner es rows.new (entries_from line name (map (λ f. f.now) fields.now)) result }
{
    match fields {
        [row, text, more @ ..] => {
            take_entry(rows, owner, line, row, text)?;
            take_entries(rows, owner, line, more)
        }
        _ => Ok(()),
    }
}
