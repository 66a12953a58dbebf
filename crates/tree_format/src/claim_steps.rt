//! Reading a claim that stands at a place of bytes.
ghost use Rattle.std.specs.Prelude.{◌≡◌, ◌^◌, ◌≤◌, ◌++◌, length, drop, IfOk, IfErr};
ghost use Rattle.std.specs.Int.RustNames.{unsigned_abs};
ghost use Rattle.std.specs.List.{flat_map};
ghost use Rattle.ip_defs.specs.Lists.{Each};
ghost use Rattle.tree_format.specs.Grammar.{coordinates_at, point_at, claim_at};
ghost use Rattle.tree_format.specs.Spellings.{number, signed_number, claim_bytes, IsClaimWithin};
ghost use Rattle.tree_format.specs.Internal.Steps.{Stands, IsFault};

use crate::number_steps::{read_byte, read_number, read_signed};
use crate::{Claim, Point, TreeError};
use std::alloc::Global;

/// Coordinates, of which there are some number.
fn read_coordinates(
    alloc: Global,
    bytes: &[u8],
    at: &mut usize,
    count: u32,
) -> Result<Point, TreeError>
    requires within { at.old ≤ length bytes.now }
    ensures size { IfOk result (λ x. length x ≡ count) }
    ensures small { IfOk result (λ x. Each (λ z. unsigned_abs z ≤ 2 ^ 24) x) }
    ensures on { IfOk result (λ x. Stands bytes.now at.old at.new (flat_map signed_number x)) }
    ensures fault { IfErr result (λ e. IsFault (coordinates_at count at.old (drop at.old bytes.now)) e) }
{
    let mut point = Point::from_vec(Vec::new(alloc));
    for _ in 0..count {
        match read_signed(bytes, at, 1 << 24) {
            Ok(coordinate) => point.push(coordinate)?,
            Err(fault) => return Err(fault),
        }
    }
    Ok(point)
}

/// A point: the count of its coordinates, and these.
fn read_point(alloc: Global, bytes: &[u8], at: &mut usize) -> Result<Point, TreeError>
    requires within { at.old ≤ length bytes.now }
    ensures within { IfOk result (λ x. (length x ≤ 4096) × Each (λ z. unsigned_abs z ≤ 2 ^ 24) x) }
    ensures on { IfOk result (λ x. Stands bytes.now at.old at.new (number (length x) ++ flat_map signed_number x)) }
    ensures fault { IfErr result (λ e. IsFault (point_at at.old (drop at.old bytes.now)) e) }
{
    match read_number(bytes, at, 4096) {
        Ok(count) => match read_coordinates(alloc, bytes, at, count as u32) {
            Ok(point) => Ok(point),
            Err(fault) => Err(fault),
        },
        Err(fault) => Err(fault),
    }
}

/// The claim at a place, and the place after it; or its fault.
pub(crate) fn read_claim(alloc: Global, bytes: &[u8], at: &mut usize) -> Result<Claim, TreeError>
    requires within { at.old ≤ length bytes.now }
    ensures within { IfOk result (λ c. IsClaimWithin c) }
    ensures on { IfOk result (λ c. Stands bytes.now at.old at.new (claim_bytes c)) }
    ensures fault { IfErr result (λ e. IsFault (claim_at at.old (drop at.old bytes.now)) e) }
{
    let place = *at as u64;
    let kind = match read_byte(bytes, at) {
        Ok(kind) => kind,
        Err(fault) => return Err(fault),
    };
    if kind == b'B' {
        match read_point(alloc, bytes, at) {
            Ok(point) => Ok(Claim::Best(point)),
            Err(fault) => Err(fault),
        }
    } else if kind == b'E' {
        Ok(Claim::Empty)
    } else {
        Err(TreeError::Tag { place })
    }
}
