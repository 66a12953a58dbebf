//! Reading a tree file one byte at a time.
ghost use Rattle.std.specs.Prelude.{◌≡◌, ◌∷◌, ◌++◌, ℕ, List, [], IfOk, IfErr, Err};
ghost use Rattle.tree_format.specs.Grammar.{IsAnswer, claims_point as claims_point_of, first_fault};
ghost use Rattle.tree_format.specs.Internal.Remaining.{HasFailed, HasRead, IsStep, ended_by, fault_of, remaining, start_with};

use crate::fields::Field;
use crate::pending::Pending;
use crate::progress::Progress;
use crate::{Memory, Token, TreeError};
use std::alloc::Global;
use std::marker::Model;

/// A tree file that comes byte by byte.
#[derive(Drop)]
pub struct TreeReader {
    progress: Progress,
}

impl Model for TreeReader {
    ghost use Rattle.tree_format.specs.declared.progress.Progress.{Progress};
    ghost use Rattle.tree_format.specs.Internal.Remaining.{IsSoundUnless};

    ghost Value = { Progress };

    ghost view = { λ r. r.progress };

    ghost invariant = { λ r. IsSoundUnless r.progress.fault r.progress };
}

/// The most levels of a tree.
const LEVELS: u32 = 801;

/// The progress before the first byte, with a tree pending.
fn start(pending: Pending) -> Progress
    ensures { result ≡ start_with pending }
{
    Progress {
        field: Field::Opening { read: 0 },
        start: 0,
        read: 0,
        low: 0,
        nodes: 0,
        pending,
        claims_point: false,
        fault: None,
    }
}

/// A reader that has read nothing. It takes memory for the trees that can be pending; no call on the reader takes any.
pub fn tree_reader(alloc: Global) -> Result<TreeReader, Memory>
    ensures { IfOk result (λ reader. HasRead reader []) }
{
    let mut pending = Pending::new(alloc)?;
    pending.push(LEVELS);
    let progress = start(pending);
    Ok(TreeReader { progress })
}

impl TreeReader {
    /// Takes the next byte, as `step` does.
    pub(crate) fn take(&mut self, byte: u8) -> Result<Token, TreeError>
        ensures step { IsStep self.old self.new byte result }
        ensures failed { (e : TreeError) → HasFailed self.old e → result ≡ Err e }
    {
        self.progress.step(byte)
    }

    /// What is left where no more bytes come, as `close` answers it.
    pub(crate) fn ending(&self) -> Result<(), TreeError>
        ensures left { remaining self.now [] ≡ ended_by result }
        ensures failed { (e : TreeError) → HasFailed self.now e → result ≡ Err e }
    {
        self.progress.ending()
    }

    /// Takes the next byte, and answers the part that it completes, or the fault of the bytes so far: a fault that stands whatever
    /// follows. After a fault every later byte has it too. Takes no memory.
    pub fn step(&mut self, byte: u8) -> Result<Token, TreeError>
        ensures answer { (bytes : List ℕ) → HasRead self.old bytes → IsAnswer bytes byte result }
        ensures read { (bytes : List ℕ) → HasRead self.old bytes → HasRead self.new (bytes ++ byte ∷ []) }
        ensures fails { IfErr result (λ e. HasFailed self.new e) }
        ensures failed { (e : TreeError) → HasFailed self.old e → result ≡ Err e }
    {
        self.take(byte)
    }

    /// The first fault of the bytes so far where no more come: that they are cut, where they are no whole file and had no other fault.
    /// Takes no memory.
    pub fn close(&self) -> Result<(), TreeError>
        ensures fault { (bytes : List ℕ) → HasRead self.now bytes → fault_of result ≡ first_fault bytes }
        ensures failed { (e : TreeError) → HasFailed self.now e → result ≡ Err e }
    {
        self.ending()
    }

    /// Whether the byte of the claim was read and is that of a point.
    pub fn claims_point(&self) -> bool
        ensures { (bytes : List ℕ) → HasRead self.now bytes → result ≡ claims_point_of bytes }
    {
        self.progress.claims_point
    }
}
