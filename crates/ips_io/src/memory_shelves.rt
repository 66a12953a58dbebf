//! A shelf of files in memory.

ghost use Rattle.std.specs.Prelude.{◌≡◌, ◌↔◌, ◌<◌, ◌≤◌, ◌∷◌, [], length, min, is_ok, is_some, true, false, Some, None, option_copied};
ghost use Rattle.std.specs.Prelude.{IfOk, OnOk, OnErr, IsOk, IsSome, IsTrue, MatchResult};
ghost use Rattle.std.specs.Bool.{OnTrue, OnFalse};
ghost use Rattle.std.specs.Option.{ForSome};
ghost use Rattle.ips_io.specs.Files.{Began, file_of, Keeps, KeepsOthers};
ghost use Rattle.ips_io.specs.Causes.{HasCause, shown_count};
ghost use Rattle.std.proofs.Common.{arith};
ghost use Rattle.ips_io.specs.Plans.{failing_at, is_due};
ghost use Rattle.ips_io.specs.Shelves.{BecomesUnknown, Begins, FillsFront, IsWhole, Moves};
ghost use Rattle.ips_io.specs.Tables.{with_file, IsWithinRoom};
ghost use Rattle.ips_io.specs.MemShelves.{after_begin, after_failed_read, after_failed_save, after_read, after_save, opened, with_files};

use crate::begun_names::BegunNames;
use crate::places::Part;
use crate::plans::Plan;
use crate::tables::Table;
use crate::{Failed, Shelf};
use ip_defs::Memory;
use std::alloc::Global;
use std::marker::Model;

/// A shelf that keeps its files in memory, within a room that it reserves when it is made. Its calls take no memory. The names that were
/// begun are known while they are at most eight, each of at most 255 bytes.
#[derive(Drop)]
pub struct MemShelf {
    table: Table,
    names: BegunNames,
    begun: Option<Part>,
    piece: u64,
    plan: Plan,
    faults: u64,
    save_faults: u64,
}

impl Model for MemShelf {
    ghost use Rattle.std.specs.Prelude.{◌+◌, ◌<◌, ◌≤◌, length, option_map};
    ghost use Rattle.std.specs.Option.{ForSome};
    ghost use Rattle.ips_io.specs.Places.{part_of};
    ghost use Rattle.ips_io.specs.MemShelves.{ShelfState};

    ghost Value = { ShelfState };

    ghost view = { λ s. record {
      files = s.table.files;
      names = s.names;
      left = option_map (part_of s.table.buffer) s.begun;
      most_files =
          s.table.most_files;
      room = s.table.room;
      piece = s.piece;
      calls = s.plan;
      faults = s.faults;
      save_faults = s.save_faults;
    } };

    ghost invariant = { λ s. (ForSome s.begun (λ p. p.start + p.length ≤ length s.table.buffer)) × (0 < s.piece) };
}

/// A shelf of no file, with room for `files` files and for `bytes` bytes of names and contents together. A read moves at most
/// `piece` bytes.
pub fn mem_shelf(alloc: Global, files: u32, bytes: u64, piece: u64) -> Result<MemShelf, Memory>
    requires { 0 < piece }
    ensures { IfOk result (λ s. s ≡ record {
      files = [];
      names = Some [];
      left = None;
      most_files = files;
      room = bytes;
      piece = piece;
      calls = record { made = 0; failing = [] };
      faults = 0;
      save_faults = 0;
    }) }
{
    let table = match Table::new(alloc, files, bytes) {
        Ok(table) => table,
        Err(memory) => return Err(memory),
    };
    let names = match BegunNames::new(alloc) {
        Ok(names) => names,
        Err(memory) => return Err(memory),
    };
    match Plan::new(alloc) {
        Ok(plan) => Ok(MemShelf {
            table,
            names,
            begun: None,
            piece,
            plan,
            faults: 0,
            save_faults: 0,
        }),
        Err(memory) => Err(memory),
    }
}

impl MemShelf {
    /// Puts a file into the table, in place of one of the same name. It is not counted as a call. False, and nothing changed,
    /// exactly where the new table exceeds the room.
    pub fn add(&mut self, name: &str, bytes: &[u8]) -> bool
        requires { self.old.left ≡ None }
        ensures fits { IsTrue result ↔ IsWithinRoom self.old.most_files self.old.room (with_file self.old.files name.now bytes.now) }
        ensures added { OnTrue result (self.new ≡ with_files self.old (with_file self.old.files name.now bytes.now)) }
        ensures same { OnFalse result (self.new ≡ self.old) }
    {
        self.begun = None;
        self.table.put(name, bytes)
    }

    /// Lists a call of `begin`, `read` or `save` that is to fail, by its number from 1. False, and nothing changed, exactly where
    /// eight are listed.
    pub fn fail_at(&mut self, call: u64) -> bool
        ensures room { IsTrue result ↔ (length self.old.calls.failing < 8) }
        ensures listed { OnTrue result (self.new ≡ record self.old { calls = failing_at call self.old.calls }) }
        ensures full { OnFalse result (self.new ≡ self.old) }
    {
        self.plan.fail_at(call)
    }

    /// The bytes of a file, none where the table has no file of the name.
    pub fn file(&self, name: &str) -> Option<&[u8]>
        ensures { option_copied result ≡ file_of self.now.files name.now }
    {
        match self.table.find(name) {
            Some(part) => Some(&self.table.buffer()[part.start..part.start + part.length]),
            None => None,
        }
    }
}

impl Shelf for MemShelf {
    ghost begun = { λ s. is_some s.left };

    ghost begun_names = { λ s. s.names };

    ghost files = { λ s. Some s.files };

    ghost left = { λ s. s.left };

    ghost faults = { λ s. shown_count s.faults };

    ghost save_faults = { λ s. shown_count s.save_faults };

    ghost faults_limit = { λ s. Prim.omega arith };

    ghost save_faults_limit = { λ s. Prim.omega arith };

    /// Begins the file of a name. Fails where the call is listed or the table has no file of the name.
    fn begin(&mut self, name: &str) -> Result<(), Failed>
        ensures begun { is_some self.new.left ≡ is_ok result }
        ensures names { Began self.old.names self.new.names (name.now ∷ []) }
        ensures content { OnOk result (Begins (Some self.old.files) (Some self.new.files) self.new.left name.now) }
        ensures err { OnErr result (Keeps (Some self.old.files) (Some self.new.files)) }
        ensures unknown { BecomesUnknown (Some self.old.files) (Some self.new.files) name.now }
        ensures cause { HasCause (shown_count self.old.faults) (shown_count self.new.faults) result }
        ensures saves { shown_count self.new.save_faults ≡ shown_count self.old.save_faults }
        ensures answers { is_ok result ≡ is_some (opened self.old name.now) }
        ensures state { self.new ≡ after_begin self.old name.now }
    {
        self.begun = None;
        self.names.note(name);
        if !self.plan.count() {
            if let Some(part) = self.table.find(name) {
                self.begun = Some(part);
                return Ok(());
            }
        }
        self.faults = self.faults.saturating_add(1);
        Err(Failed)
    }

    /// Moves as many bytes as the piece, the buffer and the file allow. Fails where the call is listed.
    fn read(&mut self, into: &mut [u8]) -> Result<usize, Failed>
        requires begun { is_some self.old.left ≡ true }
        requires room { 0 < length into.old }
        ensures begun { is_some self.new.left ≡ true }
        ensures names { self.new.names ≡ self.old.names }
        ensures files { Some self.new.files ≡ Some self.old.files }
        ensures bound { IfOk result (λ n. n ≤ length into.new) }
        ensures bytes { IfOk result (λ n. Moves self.old.left self.new.left n into.new) }
        ensures buffer { FillsFront into.old into.new result }
        ensures err { OnErr result (self.new.left ≡ self.old.left) }
        ensures cause { HasCause (shown_count self.old.faults) (shown_count self.new.faults) result }
        ensures saves { shown_count self.new.save_faults ≡ shown_count self.old.save_faults }
        ensures answers { IsOk result ↔ (is_due self.old.calls ≡ false) }
        ensures state { MatchResult result (λ n. self.new ≡ after_read self.old n) (λ _. self.new ≡ after_failed_read self.old) }
        ensures count { IfOk result (λ n. ForSome self.old.left (λ left. n ≡ min (min self.old.piece (length into.old)) (length left))) }
    {
        if self.plan.count() {
            self.faults = self.faults.saturating_add(1);
            return Err(Failed);
        }
        match self.begun {
            Some(part) => {
                let n = (self.piece.min(into.len() as u64) as usize).min(part.length);
                let from = &self.table.buffer()[part.start..part.start + n];
                into[..n].copy_from_slice(from);
                self.begun = Some(Part {
                    start: part.start + n,
                    length: part.length - n,
                });
                Ok(n)
            }
            None => unreachable!(),
        }
    }

    /// Puts a file into the table. Fails where the call is listed or the table would exceed its room, and then changes no file.
    fn save(&mut self, name: &str, bytes: &[u8]) -> Result<(), Failed>
        ensures begun { is_some self.new.left ≡ false }
        ensures names { self.new.names ≡ self.old.names }
        ensures others { KeepsOthers (Some self.old.files) (Some self.new.files) name.now }
        ensures saved { OnOk result (IsWhole (Some self.new.files) name.now bytes.now) }
        ensures cause { HasCause (shown_count self.old.save_faults) (shown_count self.new.save_faults) result }
        ensures faults { shown_count self.new.faults ≡ shown_count self.old.faults }
        ensures answers { IsOk result ↔ ((is_due self.old.calls ≡ false) × IsWithinRoom self.old.most_files self.old.room (with_file
            self.old.files name.now bytes.now)) }
        ensures state { MatchResult result (λ _. self.new ≡ after_save self.old name.now bytes.now) (λ _. self.new ≡ after_failed_save
            self.old) }
    {
        self.begun = None;
        if !self.plan.count() && self.table.put(name, bytes) {
            return Ok(());
        }
        self.save_faults = self.save_faults.saturating_add(1);
        Err(Failed)
    }
}
