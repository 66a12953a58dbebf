//! A table of files in memory that is reserved.

ghost use Rattle.std.specs.Prelude.{◌≡◌, ◌↔◌, ◌+◌, ◌≤◌, [], length, option_map, IfOk, IfSome, IsTrue};
ghost use Rattle.std.specs.Bool.{OnTrue, OnFalse};
ghost use Rattle.ips_io.specs.Files.{file_of};
ghost use Rattle.ips_io.specs.Places.{part_of};
ghost use Rattle.ips_io.specs.Tables.{with_file, IsWithinRoom};

use crate::places::{Lengths, Part, add, change, find_place};
use ip_defs::Memory;
use std::alloc::Global;
use std::marker::Model;

/// A table of files, one after another in a buffer, within a room that it reserves when it is made. Its calls take no memory.
#[derive(Drop)]
pub(crate) struct Table {
    lengths: Vec<Lengths>,
    buffer: Vec<u8>,
    most_files: u32,
    room: u64,
}

impl Model for Table {
    ghost use Rattle.std.specs.Prelude.{◌≡◌, ◌≤◌, vec_len, vec_capacity};
    ghost use Rattle.ips_io.specs.Tables.{TableState};
    ghost use Rattle.ips_io.specs.Places.{files_of, total};

    ghost Value = { TableState };

    ghost view = { λ t. record {
      files = files_of t.lengths.items t.buffer.items;
      buffer = t.buffer.items;
      most_files = t.most_files;
      room = t.room;
    } };

    ghost invariant = { λ t. (total t.lengths.items ≡ vec_len t.buffer) × (vec_len t.lengths ≤ t.most_files) × (t.most_files ≤
        vec_capacity t.lengths) × (vec_len t.buffer ≤ t.room) × (t.room ≤ vec_capacity t.buffer) };
}

impl Table {
    /// A table of no file, with room for this number of files, and of bytes of names and contents together.
    pub(crate) fn new(alloc: Global, files: u32, bytes: u64) -> Result<Table, Memory>
        ensures { IfOk result (λ t. t ≡ record { files = []; buffer = []; most_files = files; room = bytes }) }
    {
        let lengths = match Vec::with_capacity(alloc, files as usize) {
            Ok(lengths) => lengths,
            Err(_) => return Err(Memory),
        };
        match Vec::with_capacity(alloc, bytes as usize) {
            Ok(buffer) => Ok(Table {
                lengths,
                buffer,
                most_files: files,
                room: bytes,
            }),
            Err(_) => Err(Memory),
        }
    }

    /// The buffer in which the files stand.
    pub(crate) fn buffer(&self) -> &[u8]
        ensures { result.now ≡ self.now.buffer }
    {
        self.buffer.as_slice()
    }

    /// Where the content of a file stands in the buffer.
    pub(crate) fn find(&self, name: &str) -> Option<Part>
        ensures content { option_map (part_of self.now.buffer) result ≡ file_of self.now.files name.now }
        ensures within { IfSome result (λ p. p.start + p.length ≤ length self.now.buffer) }
    {
        match find_place(
            self.lengths.as_slice(),
            self.buffer.as_slice(),
            name.as_bytes(),
        ) {
            Some(place) => Some(place.content),
            None => None,
        }
    }

    /// Puts a file into the table, in place of the first one of its name. False, and nothing changed, exactly where the table
    /// would exceed its room.
    pub(crate) fn put(&mut self, name: &str, bytes: &[u8]) -> bool
        ensures fits { IsTrue result ↔ IsWithinRoom self.old.most_files self.old.room (with_file self.old.files name.now bytes.now) }
        ensures files { OnTrue result (self.new.files ≡ with_file self.old.files name.now bytes.now) }
        ensures most_files { self.new.most_files ≡ self.old.most_files }
        ensures room { self.new.room ≡ self.old.room }
        ensures same { OnFalse result (self.new ≡ self.old) }
    {
        let name = name.as_bytes();
        match find_place(self.lengths.as_slice(), self.buffer.as_slice(), name) {
            Some(place) => change(&mut self.lengths, &mut self.buffer, self.room, place, bytes),
            None => add(
                &mut self.lengths,
                &mut self.buffer,
                name,
                bytes,
                self.most_files,
                self.room,
            ),
        }
    }
}
