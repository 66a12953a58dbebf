//! How far a tree file is read: what is wanted next, and what one byte more leads to.
ghost use Rattle.std.specs.Prelude.{◌≡◌, ◌+◌, ◌^◌, ◌<◌, ◌∷◌, ℕ, List, [], None, Some, OnOk, IfErr, Err};
ghost use Rattle.tree_format.specs.Internal.Fields.{greatest_of, claim_from, is_whole as is_whole_at};
ghost use Rattle.tree_format.specs.Internal.Remaining.{left_of, remaining, claim_after, claim_unless, IsFinal, answer_then, fault_of};
ghost use Rattle.tree_format.specs.Internal.Remaining.{ended_by, begun, HasFailed, IsSound, IsSoundUnless};

use crate::fields::{Field, after, greatest};
use crate::numbers::{Digit, next_digit};
use crate::pending::Pending;
use crate::{Token, TreeError};

/// The bytes with which each file opens: `IPST` and the version.
const OPENING: [u8; 5] = [0x49, 0x50, 0x53, 0x54, 0x01];

/// The most nodes of a tree.
pub(crate) const MOST_NODES: u32 = 1_000_000;

/// The place after some bytes of a field.
fn place_after(start: u64, read: u32) -> u64
    requires start { start < 2 ^ 40 }
    requires read { read < 6 }
    ensures { result ≡ start + read }
{
    start + u64::from(read)
}

/// How far a file is read.
#[derive(Drop)]
pub(crate) struct Progress {
    /// What the next byte is part of.
    pub(crate) field: Field,
    /// The place of the first byte of the field.
    pub(crate) start: u64,
    /// How many bytes of a number are read.
    pub(crate) read: u32,
    /// The value of these bytes.
    pub(crate) low: u64,
    /// How many nodes are read or begun.
    pub(crate) nodes: u32,
    /// The trees that are still to be read, the next one first, by the levels that each may have.
    pub(crate) pending: Pending,
    /// Whether the byte of the claim is that of a point.
    pub(crate) claims_point: bool,
    /// The fault that came.
    pub(crate) fault: Option<TreeError>,
}

impl Progress {
    /// Takes a byte of the opening.
    fn take_opening(&mut self, read: u32, byte: u8) -> Result<Token, TreeError>
        requires sound { IsSound self.old }
        requires none { self.old.fault ≡ None }
        requires field { self.old.field ≡ Field.Opening read }
        ensures left { (bytes : List ℕ) → answer_then result (left_of self.new bytes) ≡ left_of self.old (byte ∷ bytes) }
        ensures sound { OnOk result (IsSound self.new) }
        ensures fault { self.new.fault ≡ None }
        ensures claim { (bytes : List ℕ) → claim_after result self.new bytes
            ≡ claim_from self.old.field self.old.claims_point (byte ∷ bytes) }
        ensures final_fault { IfErr result (λ e. IsFinal e) }
    {
        if byte != OPENING[read as usize] {
            return Err(TreeError::Magic { place: self.start });
        }
        self.start += 1;
        self.field = if read == 4 {
            Field::Claim
        } else {
            Field::Opening { read: read + 1 }
        };
        Ok(Token::Nothing)
    }

    /// Takes the byte of the claim.
    fn take_claim(&mut self, byte: u8) -> Result<Token, TreeError>
        requires sound { IsSound self.old }
        requires none { self.old.fault ≡ None }
        requires field { self.old.field ≡ Field.Claim }
        ensures left { (bytes : List ℕ) → answer_then result (left_of self.new bytes) ≡ left_of self.old (byte ∷ bytes) }
        ensures sound { OnOk result (IsSound self.new) }
        ensures fault { self.new.fault ≡ None }
        ensures claim { (bytes : List ℕ) → claim_after result self.new bytes
            ≡ claim_from self.old.field self.old.claims_point (byte ∷ bytes) }
        ensures final_fault { IfErr result (λ e. IsFinal e) }
    {
        self.field = match byte {
            b'B' => Field::CoordinateCount,
            b'E' => Field::Node,
            _ => return Err(TreeError::Tag { place: self.start }),
        };
        self.claims_point = byte == b'B';
        self.start += 1;
        Ok(Token::Claimed)
    }

    /// Counts a node and goes on to its first field.
    fn begin(&mut self, field: Field)
        requires nodes { self.old.nodes < 1000000 }
        requires start { self.old.start < 2 ^ 40 }
        ensures { self.new ≡ begun self.old field }
    {
        self.field = field;
        self.nodes += 1;
        self.start += 1;
    }

    /// Takes the byte of a node, or one after the end.
    fn take_node(&mut self, byte: u8) -> Result<Token, TreeError>
        requires sound { IsSound self.old }
        requires none { self.old.fault ≡ None }
        requires field { self.old.field ≡ Field.Node }
        ensures left { (bytes : List ℕ) → answer_then result (left_of self.new bytes) ≡ left_of self.old (byte ∷ bytes) }
        ensures sound { OnOk result (IsSound self.new) }
        ensures fault { self.new.fault ≡ None }
        ensures claim { (bytes : List ℕ) → claim_after result self.new bytes
            ≡ claim_from self.old.field self.old.claims_point (byte ∷ bytes) }
        ensures final_fault { IfErr result (λ e. IsFinal e) }
    {
        let place = self.start;
        let Some(levels) = self.pending.pop() else {
            return Err(TreeError::Tail { place });
        };
        if self.nodes == MOST_NODES {
            return Err(TreeError::TooMany { place });
        }
        if levels == 0 {
            return Err(TreeError::TooDeep { place });
        }
        match byte {
            b'L' => {
                self.begin(Field::Divisor);
                Ok(Token::Nothing)
            }
            b'S' => {
                self.pending.push(levels - 1);
                self.pending.push(levels - 1);
                self.begin(Field::Column);
                Ok(Token::Nothing)
            }
            _ => Err(TreeError::Tag { place }),
        }
    }

    /// Takes a byte of a number.
    fn take_number(&mut self, greatest: u64, byte: u8) -> Result<Token, TreeError>
        requires sound { IsSound self.old }
        requires none { self.old.fault ≡ None }
        requires field { greatest_of self.old.field ≡ Some greatest }
        ensures left { (bytes : List ℕ) → answer_then result (left_of self.new bytes) ≡ left_of self.old (byte ∷ bytes) }
        ensures sound { OnOk result (IsSound self.new) }
        ensures fault { self.new.fault ≡ None }
        ensures claim { (bytes : List ℕ) → claim_after result self.new bytes
            ≡ claim_from self.old.field self.old.claims_point (byte ∷ bytes) }
        ensures final_fault { IfErr result (λ e. IsFinal e) }
    {
        match next_digit(greatest, self.read, self.low, self.start, byte) {
            Digit::GoesOn(low) => {
                self.low = low;
                self.read += 1;
                Ok(Token::Nothing)
            }
            Digit::Fails(fault) => Err(fault),
            Digit::Ends(value) => match after(self.field, self.start, value) {
                Ok((field, token)) => {
                    self.field = field;
                    self.start += u64::from(self.read) + 1;
                    self.read = 0;
                    self.low = 0;
                    Ok(token)
                }
                Err(fault) => Err(fault),
            },
        }
    }

    /// Takes a byte where no fault came.
    fn take(&mut self, byte: u8) -> Result<Token, TreeError>
        requires sound { IsSound self.old }
        requires none { self.old.fault ≡ None }
        ensures left { (bytes : List ℕ) → answer_then result (left_of self.new bytes) ≡ left_of self.old (byte ∷ bytes) }
        ensures sound { OnOk result (IsSound self.new) }
        ensures fault { self.new.fault ≡ None }
        ensures claim { (bytes : List ℕ) → claim_after result self.new bytes
            ≡ claim_from self.old.field self.old.claims_point (byte ∷ bytes) }
        ensures final_fault { IfErr result (λ e. IsFinal e) }
    {
        if let Some(greatest) = greatest(self.field) {
            return self.take_number(greatest, byte);
        }
        match self.field {
            Field::Opening { read } => self.take_opening(read, byte),
            Field::Claim => self.take_claim(byte),
            _ => self.take_node(byte),
        }
    }

    /// Takes the next byte. After a fault each byte has that fault.
    pub(crate) fn step(&mut self, byte: u8) -> Result<Token, TreeError>
        requires sound { IsSoundUnless self.old.fault self.old }
        ensures left { (bytes : List ℕ) → answer_then result (remaining self.new bytes) ≡ remaining self.old (byte ∷ bytes) }
        ensures sound { IsSoundUnless self.new.fault self.new }
        ensures fault { self.new.fault ≡ fault_of result }
        ensures failed { (e : TreeError) → HasFailed self.old e → result ≡ Err e }
        ensures claim { (bytes : List ℕ) → claim_unless self.new.fault self.new bytes
            ≡ claim_unless self.old.fault self.old (byte ∷ bytes) }
    {
        if let Some(fault) = self.fault {
            return Err(fault);
        }
        let taken = self.take(byte);
        if let Err(fault) = taken {
            self.fault = Some(fault);
        }
        taken
    }

    /// Whether nothing is left to read.
    fn is_whole(&self) -> bool
        ensures { result ≡ is_whole_at self.now.field self.now.pending }
    {
        match self.field {
            Field::Node => self.pending.is_empty(),
            _ => false,
        }
    }

    /// The fault of the bytes where no more come.
    pub(crate) fn ending(&self) -> Result<(), TreeError>
        requires sound { IsSoundUnless self.now.fault self.now }
        ensures left { remaining self.now [] ≡ ended_by result }
        ensures failed { (e : TreeError) → HasFailed self.now e → result ≡ Err e }
    {
        if let Some(fault) = self.fault {
            return Err(fault);
        }
        if self.is_whole() {
            Ok(())
        } else {
            Err(TreeError::Cut {
                place: place_after(self.start, self.read),
            })
        }
    }
}
