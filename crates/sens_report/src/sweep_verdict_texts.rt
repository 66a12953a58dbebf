//! The printed text of the verdict on the proof of a sweep.

ghost use Rattle.std.specs.Prelude.{◌≡◌, ◌++◌, IfOk, codes, decimal, string_bytes};
ghost use Rattle.sens_report.specs.SweepVerdictTexts.{fault_line as line_of_fault, short_text, sweep_verdict_line, whole_text};
ghost use Rattle.sens_report.specs.VerdictTexts.{breach_text as text_of_breach};

use crate::amount_texts::{amount_text, bound_text};
use crate::verdict_texts::breach_text;
use ip_defs::{Bound, Breach, Memory, Parts};
use ip_model::IntModel;
use std::alloc::{AllocError, Global};
use sweep_proof::SweepVerdict;

/// The front of the line of a piece that has a fault, by its number from 1.
fn piece_text(alloc: Global, number: u64) -> Result<String, AllocError>
    ensures { IfOk result (λ s. string_bytes s ≡ codes "not proved piece " ++ decimal number ++ codes " ") }
{
    format!(in alloc; "not proved piece {number} ")
}

/// The line of a piece by its number from 0, and what is wrong with it.
fn fault_line(alloc: Global, piece: u32, fault: &str) -> Result<String, AllocError>
    ensures { IfOk result (λ s. string_bytes s ≡ line_of_fault piece fault.now) }
{
    let mut line = piece_text(alloc, u64::from(piece) + 1)?;
    line.push_str(fault)?;
    line.push_str("\n")?;
    Ok(line)
}

/// The line of a piece whose point breaks a column or a row.
fn breach_line(
    alloc: Global,
    parts: &Parts,
    piece: u32,
    place: Breach,
) -> Result<String, AllocError>
    ensures { IfOk result (λ s. string_bytes s ≡ line_of_fault piece (text_of_breach parts.now place)) }
{
    let fault = breach_text(alloc, parts, place)?;
    fault_line(alloc, piece, fault.as_str())
}

/// Two numbers after a word, a blank between them.
fn numbers_text(alloc: Global, word: &str, left: &str, right: &str) -> Result<String, AllocError>
    ensures { IfOk result (λ s. string_bytes s ≡ word.now ++ left.now ++ codes " " ++ right.now) }
{
    let mut text = String::from_str(alloc, word)?;
    text.push_str(left)?;
    text.push_str(" ")?;
    text.push_str(right)?;
    Ok(text)
}

/// The line of a piece whose cost and another one do not fall, or do not meet, with the word for that.
fn costs_line(
    alloc: Global,
    piece: u32,
    word: &str,
    left: i128,
    right: i128,
) -> Result<String, Memory>
    ensures { IfOk result (λ s. string_bytes s ≡ line_of_fault piece (word.now ++ whole_text left ++ codes " " ++ whole_text right)) }
{
    let left = amount_text(alloc, Some(left), 0)?;
    let right = amount_text(alloc, Some(right), 0)?;
    let fault = numbers_text(alloc, word, left.as_str(), right.as_str())?;
    Ok(fault_line(alloc, piece, fault.as_str())?)
}

/// The line of a piece whose bound does not reach its claimed cost.
fn short_line(
    alloc: Global,
    piece: u32,
    bound: Bound,
    claim: Option<i128>,
) -> Result<String, Memory>
    ensures { IfOk result (λ s. string_bytes s ≡ line_of_fault piece (short_text bound claim)) }
{
    let bound = bound_text(alloc, bound, 0)?;
    let claim = amount_text(alloc, claim, 0)?;
    let fault = numbers_text(alloc, "short ", bound.as_str(), claim.as_str())?;
    Ok(fault_line(alloc, piece, fault.as_str())?)
}

/// The line of a verdict.
fn verdict_line(alloc: Global, parts: &Parts, verdict: SweepVerdict) -> Result<String, Memory>
    ensures { IfOk result (λ s. string_bytes s ≡ sweep_verdict_line parts.now verdict) }
{
    match verdict {
        SweepVerdict::Proved => Ok(String::from_str(alloc, "proved\n")?),
        SweepVerdict::Cover { piece } => Ok(fault_line(alloc, piece, "cover")?),
        SweepVerdict::Breach { piece, place } => Ok(breach_line(alloc, parts, piece, place)?),
        SweepVerdict::Fall { piece, left, right } => costs_line(alloc, piece, "fall ", left, right),
        SweepVerdict::Meet { piece, left, right } => costs_line(alloc, piece, "meet ", left, right),
        SweepVerdict::Short {
            piece,
            bound,
            claim,
        } => short_line(alloc, piece, bound, claim),
    }
}

/// The line of the verdict on the proof of a sweep of a model: `proved`, or `not proved piece K` and what is wrong there: `cover`, `column
/// NAME`, `row NAME`, `fall L R`, `meet L R` or `short BOUND CLAIM`. K counts from 1. The numbers are whole ones in the units of the
/// verdict; `empty` stands for an infinite bound, and for a claim of emptiness. `Memory` means out of memory.
pub fn recheck_text(
    alloc: Global,
    model: &IntModel,
    verdict: &SweepVerdict,
) -> Result<Vec<u8>, Memory>
    ensures text { IfOk result (λ text. text.items ≡ sweep_verdict_line model.now verdict.now) }
{
    let line = verdict_line(alloc, model.parts(), *verdict)?;
    Ok(line.into_bytes())
}
