//! Reading a whole proof from its bytes, by the reader of one byte at a time.
ghost use Rattle.std.specs.Prelude.{suc, ◌≡◌, ◌++◌, ◌∷◌, ◌≤◌, ℕ, List, [], length, drop, IfOk, IfErr};
ghost use Rattle.std.specs.List.{flat_map};
ghost use Rattle.proof_tree.specs.Trees.{PlainTree, plain};
ghost use Rattle.tree_format.specs.Readings.{complete, part_then};
ghost use Rattle.tree_format.specs.Spellings.{Spells, multiplier_part, tree_parts, coordinate_part};
ghost use Rattle.tree_format.specs.Grammar.{IsErrorOf, IsRefusal, claims_point};
ghost use Rattle.tree_format.specs.Orders.{IsInOrder, a_claim, a_coordinate, trees, a_count, a_multiplier};
ghost use Rattle.tree_format.specs.Orders.{multipliers as some_multipliers};
ghost use Rattle.tree_format.specs.Internal.Remaining.{HasRead, fault_of, remaining};
ghost use Rattle.tree_format.specs.Internal.Stretches.{ReadsOn, IsReadAs, claim_of};

use crate::{
    Cert, Claim, Multipliers, Point, Proof, Token, Tree, TreeError, TreeReader, tree_reader,
};
use std::alloc::Global;

/// The next part of the proof, or the first fault. Something has to be left.
fn next_part(reader: &mut TreeReader, bytes: &[u8], at: &mut usize) -> Result<Token, TreeError>
    requires within { at.old ≤ length bytes.now }
    requires left { remaining reader.old (drop at.old bytes.now) ≡ complete → ⊥ }
    ensures on { IfOk result (λ part. ReadsOn bytes.now reader.old at.old reader.new at.new (part ∷ [])) }
    ensures fault { IfErr result (λ e. IsErrorOf (remaining reader.old (drop at.old bytes.now)).fault e) }
{
    while *at < bytes.len() {
        match reader.take(bytes[*at]) {
            Ok(token) => {
                *at += 1;
                match token {
                    Token::Nothing => {}
                    _ => return Ok(token),
                }
            }
            Err(fault) => return Err(fault),
        }
    }
    match reader.ending() {
        Ok(()) => unreachable!(),
        Err(fault) => Err(fault),
    }
}

/// The next multiplier of a certificate with its row.
fn multiplier(
    reader: &mut TreeReader,
    bytes: &[u8],
    at: &mut usize,
) -> Result<(u32, i64), TreeError>
    requires within { at.old ≤ length bytes.now }
    requires order { (n k : ℕ) × IsInOrder (a_multiplier n k) (remaining reader.old (drop at.old bytes.now)) }
    ensures on { IfOk result (λ p. ReadsOn bytes.now reader.old at.old reader.new at.new (multiplier_part p)) }
    ensures fault { IfErr result (λ e. IsErrorOf (remaining reader.old (drop at.old bytes.now)).fault e) }
{
    match next_part(reader, bytes, at) {
        Ok(part) => match part {
            Token::Part { row, multiplier } => Ok((row, multiplier)),
            _ => unreachable!(),
        },
        Err(fault) => Err(fault),
    }
}

/// The multipliers of a certificate.
fn multipliers(
    alloc: Global,
    reader: &mut TreeReader,
    bytes: &[u8],
    at: &mut usize,
    count: u32,
) -> Result<Multipliers, TreeError>
    requires within { at.old ≤ length bytes.now }
    requires order { (k : ℕ) × IsInOrder (some_multipliers count k) (remaining reader.old (drop at.old bytes.now)) }
    ensures on { IfOk result (λ y. ReadsOn bytes.now reader.old at.old reader.new at.new (flat_map multiplier_part y)) }
    ensures size { IfOk result (λ y. length y ≡ count) }
    ensures fault { IfErr result (λ e. IsErrorOf (remaining reader.old (drop at.old bytes.now)).fault e) }
{
    let mut y = Multipliers::from_vec(Vec::new(alloc));
    for _ in 0..count {
        match multiplier(reader, bytes, at) {
            Ok(pair) => y.push(pair)?,
            Err(fault) => return Err(fault),
        }
    }
    Ok(y)
}

/// A certificate whose divisor is read.
fn cert(
    alloc: Global,
    reader: &mut TreeReader,
    bytes: &[u8],
    at: &mut usize,
    q: i64,
) -> Result<Cert, TreeError>
    requires within { at.old ≤ length bytes.now }
    requires order { (k : ℕ) × IsInOrder (a_count k) (remaining reader.old (drop at.old bytes.now)) }
    ensures on { IfOk result (λ c. ReadsOn bytes.now reader.old at.old reader.new at.new
        (Token.Parts (length c.y) ∷ flat_map multiplier_part c.y)) }
    ensures divisor { IfOk result (λ c. c.q ≡ q) }
    ensures fault { IfErr result (λ e. IsErrorOf (remaining reader.old (drop at.old bytes.now)).fault e) }
{
    match next_part(reader, bytes, at) {
        Ok(part) => match part {
            Token::Parts(count) => match multipliers(alloc, reader, bytes, at, count) {
                Ok(y) => Ok(Cert { q, y }),
                Err(fault) => Err(fault),
            },
            _ => unreachable!(),
        },
        Err(fault) => Err(fault),
    }
}

/// A tree whose first part is read. It goes as deep as the tree.
fn tree(
    alloc: Global,
    reader: &mut TreeReader,
    bytes: &[u8],
    at: &mut usize,
    first: Token,
) -> Result<Tree, TreeError>
    requires within { at.old ≤ length bytes.now }
    requires order { (k : ℕ) × IsInOrder (trees (suc k)) (part_then first (remaining reader.old (drop at.old bytes.now))) }
    ensures on { IfOk result (λ t. (parts : List Token) × (tree_parts (plain t) ≡ first ∷ parts)
        × ReadsOn bytes.now reader.old at.old reader.new at.new parts) }
    ensures fault { IfErr result (λ e. IsErrorOf (remaining reader.old (drop at.old bytes.now)).fault e) }
{
    match first {
        Token::LeafQ(q) => match cert(alloc, reader, bytes, at, q) {
            Ok(cert) => Ok(Tree::Leaf(cert)),
            Err(fault) => Err(fault),
        },
        Token::SplitAt { col, at: cut } => {
            let next = match next_part(reader, bytes, at) {
                Ok(part) => part,
                Err(fault) => return Err(fault),
            };
            let left = match tree(alloc, reader, bytes, at, next) {
                Ok(left) => left,
                Err(fault) => return Err(fault),
            };
            let next = match next_part(reader, bytes, at) {
                Ok(part) => part,
                Err(fault) => return Err(fault),
            };
            let right = match tree(alloc, reader, bytes, at, next) {
                Ok(right) => right,
                Err(fault) => return Err(fault),
            };
            let left = Box::new(alloc, left)?;
            let right = Box::new(alloc, right)?;
            Ok(Tree::Split {
                col,
                at: cut,
                left,
                right,
            })
        }
        _ => unreachable!(),
    }
}

/// The claimed point, none of whose coordinates is read, and the part after it.
fn point(
    alloc: Global,
    reader: &mut TreeReader,
    bytes: &[u8],
    at: &mut usize,
) -> Result<(Point, Token), TreeError>
    requires within { at.old ≤ length bytes.now }
    requires order { IsInOrder a_coordinate (remaining reader.old (drop at.old bytes.now)) }
    ensures on { IfOk result (λ r. ReadsOn bytes.now reader.old at.old reader.new at.new (flat_map coordinate_part r.0 ++ r.1 ∷ [])) }
    ensures first { IfOk result (λ r. IsInOrder (trees 1) (part_then r.1 (remaining reader.new (drop at.new bytes.now)))) }
    ensures fault { IfErr result (λ e. IsErrorOf (remaining reader.old (drop at.old bytes.now)).fault e) }
{
    let mut point = Point::from_vec(Vec::new(alloc));
    loop {
        match next_part(reader, bytes, at) {
            Ok(part) => match part {
                Token::Coordinate(coordinate) => point.push(coordinate)?,
                _ => return Ok((point, part)),
            },
            Err(fault) => return Err(fault),
        }
    }
}

/// Reads the bytes from a place to the end.
fn finish(reader: &mut TreeReader, bytes: &[u8], at: usize) -> Result<(), TreeError>
    requires within { at ≤ length bytes.now }
    ensures on { IfOk result (λ done. (parts : List Token) × ReadsOn bytes.now reader.old at reader.new (length bytes.now) parts) }
    ensures fault { fault_of result ≡ (remaining reader.old (drop at bytes.now)).fault }
{
    for i in at..bytes.len() {
        match reader.take(bytes[i]) {
            Ok(_) => {}
            Err(fault) => return Err(fault),
        }
    }
    reader.ending()
}

/// The claim of the bytes that a reader has read.
fn claim(reader: &TreeReader, point: Point) -> Claim
    ensures { (bytes : List ℕ) → HasRead reader.now bytes → result ≡ claim_of (claims_point bytes) point }
{
    if reader.claims_point() {
        Claim::Best(point)
    } else {
        Claim::Empty
    }
}

/// The claim and the tree of all bytes, by a reader that has read nothing.
fn read_all(alloc: Global, reader: &mut TreeReader, bytes: &[u8]) -> Result<Proof, TreeError>
    requires { HasRead reader.old [] }
    ensures read { IfOk result (λ proof. IsReadAs bytes.now proof.claim (plain proof.tree)) }
    ensures refused { IfErr result (λ e. IsRefusal bytes.now e) }
{
    let mut at = 0;
    match next_part(reader, bytes, &mut at) {
        Ok(_) => {}
        Err(fault) => return Err(fault),
    }
    let (point, first) = match point(alloc, reader, bytes, &mut at) {
        Ok(both) => both,
        Err(fault) => return Err(fault),
    };
    let tree = match tree(alloc, reader, bytes, &mut at, first) {
        Ok(tree) => tree,
        Err(fault) => return Err(fault),
    };
    match finish(reader, bytes, at) {
        Ok(()) => {}
        Err(fault) => return Err(fault),
    }
    let claim = claim(reader, point);
    Ok(Proof { claim, tree })
}

/// The proof that bytes spell, all of the bytes, or their first fault.
pub fn decode(alloc: Global, bytes: &[u8]) -> Result<Proof, TreeError>
    ensures spelled { IfOk result (λ proof. Spells bytes.now proof.claim (plain proof.tree)) }
    ensures only { (c : Claim) (t : PlainTree) → Spells bytes.now c t
        → IfOk result (λ proof. (proof.claim ≡ c) × (plain proof.tree ≡ t)) × IfErr result (λ e. e ≡ TreeError.Memory) }
    ensures refused { IfErr result (λ e. IsRefusal bytes.now e) }
{
    let mut reader = tree_reader(alloc)?;
    read_all(alloc, &mut reader, bytes)
}
