//! The names that a shelf in memory was asked to begin, in memory that is reserved when the shelf is made.

ghost use Rattle.std.specs.Prelude.{◌≡◌, ◌<◌, ◌≤◌, ◌++◌, ◌∷◌, [], Some, IfOk, vec_len, vec_capacity};
ghost use Rattle.ips_io.specs.BegunNames.{noted};

use crate::places::append;
use ip_defs::Memory;
use std::alloc::Global;
use std::marker::Model;

/// The most names that are kept.
const MOST_NAMES: usize = 8;

/// The longest name that is kept, in bytes.
const LONGEST_NAME: usize = 255;

/// Names in order, or that they are no longer known.
#[derive(Drop)]
pub(crate) struct BegunNames {
    lengths: Vec<usize>,
    buffer: Vec<u8>,
    are_known: bool,
}

impl Model for BegunNames {
    ghost use Rattle.std.specs.Prelude.{◌≡◌, ◌≤◌, ◌*◌, vec_len, vec_capacity, Option, Some, None, if◌then◌else◌};
    ghost use Rattle.ips_io.specs.Files.{Names};
    ghost use Rattle.ips_io.specs.BegunNames.{texts_of, total_of};

    ghost Value = { Option Names };

    ghost view = { λ b. if b.are_known then Some (texts_of b.lengths.items b.buffer.items) else None };

    ghost invariant = { λ b. (total_of b.lengths.items ≡ vec_len b.buffer) × (vec_len b.buffer ≤ 255 * vec_len b.lengths) × (vec_len
        b.lengths ≤ 8) × (8 ≤ vec_capacity b.lengths) × (2040 ≤ vec_capacity b.buffer) };
}

impl BegunNames {
    /// No name. Reserves the memory for eight names of 255 bytes.
    pub(crate) fn new(alloc: Global) -> Result<BegunNames, Memory>
        ensures { IfOk result (λ b. b ≡ Some []) }
    {
        let lengths = match Vec::with_capacity(alloc, MOST_NAMES) {
            Ok(lengths) => lengths,
            Err(_) => return Err(Memory),
        };
        match Vec::with_capacity(alloc, MOST_NAMES * LONGEST_NAME) {
            Ok(buffer) => Ok(BegunNames {
                lengths,
                buffer,
                are_known: true,
            }),
            Err(_) => Err(Memory),
        }
    }

    /// Adds a name. From the ninth name on, or the first of more than 255 bytes, no name is known.
    pub(crate) fn note(&mut self, name: &str)
        ensures { self.new ≡ noted self.old name.now }
    {
        let name = name.as_bytes();
        let length = name.len();
        if !self.are_known || self.lengths.len() >= MOST_NAMES || length > LONGEST_NAME {
            self.are_known = false;
            return;
        }
        append(&mut self.buffer, name);
        push_length(&mut self.lengths, length);
    }
}

/// Adds a length behind the others, for which memory is reserved.
fn push_length(lengths: &mut Vec<usize>, length: usize)
    requires { vec_len lengths.old < vec_capacity lengths.old }
    ensures lengths { lengths.new.items ≡ lengths.old.items ++ length ∷ [] }
    ensures reserved { vec_capacity lengths.old ≤ vec_capacity lengths.new }
{
    match lengths.push(length) {
        Ok(()) => {}
        Err(_) => unreachable!(),
    }
}
