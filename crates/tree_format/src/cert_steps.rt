//! Reading a certificate that stands at a place of bytes.
ghost use Rattle.std.specs.Prelude.{◌≡◌, ◌^◌, ◌≤◌, ◌<◌, ℕ, suc, length, drop, IfOk, IfErr};
ghost use Rattle.std.specs.Int.RustNames.{unsigned_abs};
ghost use Rattle.std.specs.List.{flat_map};
ghost use Rattle.ip_defs.specs.Limits.{IsCert};
ghost use Rattle.tree_format.specs.Grammar.{multiplier_at, multipliers_at, cert_at};
ghost use Rattle.tree_format.specs.Spellings.{number, signed_number, multiplier_bytes, cert_bytes};
ghost use Rattle.tree_format.specs.Internal.Steps.{Stands, IsFault, AreMultipliers};

use crate::number_steps::{read_number, read_signed};
use crate::{Cert, Multipliers, TreeError};
use std::alloc::Global;

/// The row of the next of some multipliers, which is at least a least one.
fn read_row(bytes: &[u8], at: &mut usize, least: u32) -> Result<u32, TreeError>
    requires within { at.old ≤ length bytes.now }
    ensures row { IfOk result (λ row. (least ≤ row) × (row ≤ 1023)) }
    ensures on { IfOk result (λ row. Stands bytes.now at.old at.new (number row)) }
    ensures fault { IfErr result (λ e. (n : ℕ) → IsFault (multipliers_at (suc n) least at.old (drop at.old bytes.now)) e) }
{
    let place = *at as u64;
    let row = match read_number(bytes, at, 1023) {
        Ok(row) => row as u32,
        Err(fault) => return Err(fault),
    };
    if row < least {
        return Err(TreeError::Order { place });
    }
    Ok(row)
}

/// The value of a multiplier, which is not 0.
fn read_value(bytes: &[u8], at: &mut usize) -> Result<i64, TreeError>
    requires within { at.old ≤ length bytes.now }
    ensures value { IfOk result (λ z. (0 < unsigned_abs z) × (unsigned_abs z ≤ 2 ^ 36)) }
    ensures on { IfOk result (λ z. Stands bytes.now at.old at.new (signed_number z)) }
    ensures fault { IfErr result (λ e. (row : ℕ) → IsFault (multiplier_at row at.old (drop at.old bytes.now)) e) }
{
    let place = *at as u64;
    let value = match read_signed(bytes, at, 1 << 36) {
        Ok(value) => value,
        Err(fault) => return Err(fault),
    };
    if value == 0 {
        return Err(TreeError::Zero { place });
    }
    Ok(value)
}

/// The next of some multipliers with its row, which is at least a least one.
fn read_multiplier(bytes: &[u8], at: &mut usize, least: u32) -> Result<(u32, i64), TreeError>
    requires within { at.old ≤ length bytes.now }
    ensures row { IfOk result (λ p. (least ≤ p.0) × (p.0 ≤ 1023)) }
    ensures value { IfOk result (λ p. (0 < unsigned_abs p.1) × (unsigned_abs p.1 ≤ 2 ^ 36)) }
    ensures on { IfOk result (λ p. Stands bytes.now at.old at.new (multiplier_bytes p)) }
    ensures fault { IfErr result (λ e. (n : ℕ) → IsFault (multipliers_at (suc n) least at.old (drop at.old bytes.now)) e) }
{
    let row = match read_row(bytes, at, least) {
        Ok(row) => row,
        Err(fault) => return Err(fault),
    };
    match read_value(bytes, at) {
        Ok(value) => Ok((row, value)),
        Err(fault) => Err(fault),
    }
}

/// Multipliers with their rows, of which there are some number.
fn read_multipliers(
    alloc: Global,
    bytes: &[u8],
    at: &mut usize,
    count: u32,
) -> Result<Multipliers, TreeError>
    requires within { at.old ≤ length bytes.now }
    ensures size { IfOk result (λ y. length y ≡ count) }
    ensures within { IfOk result (λ y. AreMultipliers 0 y) }
    ensures on { IfOk result (λ y. Stands bytes.now at.old at.new (flat_map multiplier_bytes y)) }
    ensures fault { IfErr result (λ e. IsFault (multipliers_at count 0 at.old (drop at.old bytes.now)) e) }
{
    let mut y = Multipliers::from_vec(Vec::new(alloc));
    let mut least = 0;
    for _ in 0..count {
        match read_multiplier(bytes, at, least) {
            Ok(pair) => {
                least = pair.0 + 1;
                y.push(pair)?;
            }
            Err(fault) => return Err(fault),
        }
    }
    Ok(y)
}

/// The certificate at a place, and the place after it; or its fault.
pub(crate) fn read_cert(alloc: Global, bytes: &[u8], at: &mut usize) -> Result<Cert, TreeError>
    requires within { at.old ≤ length bytes.now }
    ensures within { IfOk result (λ c. IsCert 1024 c) }
    ensures on { IfOk result (λ c. Stands bytes.now at.old at.new (cert_bytes c)) }
    ensures fault { IfErr result (λ e. IsFault (cert_at at.old (drop at.old bytes.now)) e) }
{
    let q = match read_number(bytes, at, 1 << 36) {
        Ok(q) => q as i64,
        Err(fault) => return Err(fault),
    };
    let count = match read_number(bytes, at, 1024) {
        Ok(count) => count as u32,
        Err(fault) => return Err(fault),
    };
    match read_multipliers(alloc, bytes, at, count) {
        Ok(y) => Ok(Cert { q, y }),
        Err(fault) => Err(fault),
    }
}
