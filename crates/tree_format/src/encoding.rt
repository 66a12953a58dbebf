//! Writing the one spelling of a proof.
ghost use Rattle.std.specs.Prelude.{◌≡◌, ◌++◌, ◌≤◌, ◌^◌, length, OnOk, IfOk};
ghost use Rattle.std.specs.Int.RustNames.{unsigned_abs};
ghost use Rattle.std.specs.List.{flat_map};
ghost use Rattle.ip_defs.specs.Limits.{AreSmall, IsCert};
ghost use Rattle.ip_defs.specs.Lists.{Each};
ghost use Rattle.proof_tree.specs.Trees.{plain};
ghost use Rattle.proof_tree.specs.Within.{AreNumbersWithin, IsTreeWithin};
ghost use Rattle.tree_format.specs.Spellings.{signed_number, multiplier_bytes, cert_bytes, claim_bytes, tree_bytes, spelling};
ghost use Rattle.tree_format.specs.Spellings.{IsClaimWithin};

use crate::numbers::push_number;
use crate::values::unsigned;
use crate::{Cert, Claim, Memory, Proof, Tree};
use std::alloc::Global;

/// Writes a signed number at the end.
fn push_signed(out: &mut Vec<u8>, value: i64) -> Result<(), Memory>
    requires { unsigned_abs value ≤ 2 ^ 36 }
    ensures { OnOk result (out.new.items ≡ out.old.items ++ signed_number value) }
{
    push_number(out, unsigned(value))
}

/// Writes multipliers with their rows at the end.
fn push_multipliers(out: &mut Vec<u8>, y: &[(u32, i64)]) -> Result<(), Memory>
    requires { AreSmall (2 ^ 36) y.now }
    ensures { OnOk result (out.new.items ≡ out.old.items ++ flat_map multiplier_bytes y.now) }
{
    for (row, multiplier) in y {
        push_number(out, u64::from(*row))?;
        push_signed(out, *multiplier)?;
    }
    Ok(())
}

/// Writes a certificate at the end.
fn push_cert(out: &mut Vec<u8>, cert: &Cert) -> Result<(), Memory>
    requires { IsCert 1024 cert.now }
    ensures { OnOk result (out.new.items ≡ out.old.items ++ cert_bytes cert.now) }
{
    push_number(out, cert.q.unsigned_abs())?;
    push_number(out, cert.y.as_slice().len() as u64)?;
    push_multipliers(out, cert.y.as_slice())
}

/// Writes a tree at the end.
pub(crate) fn push_tree(out: &mut Vec<u8>, tree: &Tree) -> Result<(), Memory>
    requires { AreNumbersWithin (plain tree.now) }
    ensures { OnOk result (out.new.items ≡ out.old.items ++ tree_bytes (plain tree.now)) }
{
    match tree {
        Tree::Leaf(cert) => {
            out.push(b'L')?;
            push_cert(out, cert)
        }
        Tree::Split {
            col,
            at,
            left,
            right,
        } => {
            out.push(b'S')?;
            push_number(out, u64::from(*col))?;
            push_signed(out, *at)?;
            push_tree(out, left)?;
            push_tree(out, right)
        }
    }
}

/// Writes coordinates at the end.
fn push_coordinates(out: &mut Vec<u8>, point: &[i64]) -> Result<(), Memory>
    requires { Each (λ z. unsigned_abs z ≤ 2 ^ 24) point.now }
    ensures { OnOk result (out.new.items ≡ out.old.items ++ flat_map signed_number point.now) }
{
    for coordinate in point {
        push_signed(out, *coordinate)?;
    }
    Ok(())
}

/// Writes a claim at the end.
pub(crate) fn push_claim(out: &mut Vec<u8>, claim: &Claim) -> Result<(), Memory>
    requires { IsClaimWithin claim.now }
    ensures { OnOk result (out.new.items ≡ out.old.items ++ claim_bytes claim.now) }
{
    match claim {
        Claim::Best(point) => {
            out.push(b'B')?;
            push_number(out, point.as_slice().len() as u64)?;
            push_coordinates(out, point.as_slice())
        }
        Claim::Empty => {
            out.push(b'E')?;
            Ok(())
        }
    }
}

/// The bytes of a proof: its one spelling.
pub fn encode(alloc: Global, proof: &Proof) -> Result<Vec<u8>, Memory>
    requires claim { IsClaimWithin proof.now.claim }
    requires tree { IsTreeWithin (plain proof.now.tree) }
    ensures { IfOk result (λ bytes. bytes.items ≡ spelling proof.now.claim (plain proof.now.tree)) }
{
    let mut out = Vec::from_array(alloc, [0x49, 0x50, 0x53, 0x54, 0x01])?;
    push_claim(&mut out, &proof.claim)?;
    push_tree(&mut out, &proof.tree)?;
    Ok(out)
}
