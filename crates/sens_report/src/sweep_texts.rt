//! The printed text of a row sweep: a line for each piece.

ghost use Rattle.std.specs.Prelude.{◌≡◌, ◌++◌, IfOk, codes, decimal, length, string_bytes};
ghost use Rattle.ip_defs.specs.Lists.{Each};
ghost use Rattle.mps_defs.specs.CanonicalText.{value_text as amount_text};
ghost use Rattle.proof_tree.specs.Verdicts.{HasLength};
ghost use Rattle.sens_report.specs.SweepTexts.{claim_text as text_of_claim, piece_line as line_of_piece, row_sweep_lines};
ghost use Rattle.sweep_proof.specs.RowRules.{claimed_cost};
ghost use Rattle.sweep_proof.specs.RowSweeps.{FitsPiece, FitsPieces};

use decimals::decimal_text;
use ip_defs::Memory;
use ip_model::{IntModel, cost};
use std::alloc::{AllocError, Global};
use sweep_proof::{Claim, RowPiece, RowSweep};

/// The text of the optimal value at the steps of a piece, with the decimals of the costs.
fn value_text(alloc: Global, model: &IntModel, cost: i128) -> Result<String, Memory>
    ensures { IfOk result (λ s. string_bytes s ≡ codes "value " ++ amount_text model.now cost) }
{
    let value = decimal_text(alloc, cost, model.parts().cost_decimals)?;
    let value = value.as_str();
    Ok(format!(in alloc; "value {value}")?)
}

/// The text of what is claimed at the steps of a piece: the cost of a point, or that there is none.
fn claim_text(alloc: Global, model: &IntModel, claim: &Claim) -> Result<String, Memory>
    requires { HasLength (length model.now.columns) claim.now }
    ensures { IfOk result (λ s. string_bytes s ≡ text_of_claim model.now (claimed_cost model.now claim.now)) }
{
    match claim {
        Claim::Best(point) => value_text(alloc, model, cost(model, point)),
        Claim::Empty => Ok(String::from_str(alloc, "empty")?),
    }
}

/// The front of a piece's line: its first and its last step.
fn steps_text(alloc: Global, from: u32, to: u32) -> Result<String, AllocError>
    ensures { IfOk result (λ s. string_bytes s ≡ codes "piece " ++ decimal from ++ codes " " ++ decimal to ++ codes " ") }
{
    let mut text = format!(in alloc; "piece {from} ")?;
    let to = format!(in alloc; "{to}")?;
    text.push_str(to.as_str())?;
    text.push_str(" ")?;
    Ok(text)
}

/// The line of a piece.
fn piece_line(alloc: Global, model: &IntModel, piece: &RowPiece) -> Result<String, Memory>
    requires { FitsPiece model.now piece.now }
    ensures { IfOk result (λ s. string_bytes s ≡ line_of_piece model.now piece.now) }
{
    let mut line = steps_text(alloc, piece.from, piece.to)?;
    let claim = claim_text(alloc, model, &piece.claim)?;
    line.push_str(claim.as_str())?;
    line.push_str("\n")?;
    Ok(line)
}

/// The lines of pieces, in order.
fn piece_lines(alloc: Global, model: &IntModel, pieces: &[RowPiece]) -> Result<String, Memory>
    requires { Each (FitsPiece model.now) pieces.now }
    ensures { IfOk result (λ s. string_bytes s ≡ row_sweep_lines model.now pieces.now) }
{
    let mut text = String::new(alloc);
    for piece in pieces {
        let line = piece_line(alloc, model, piece)?;
        text.push_str(line.as_str())?;
    }
    Ok(text)
}

/// The text of a row sweep of a model, a line for each piece in order: `piece A B value V` or `piece A B empty`. A and B are the first and
/// the last step of the piece, V is the cost of its point in units of the costs, with their decimals. `Memory` means out of memory.
pub fn row_sweep_text(alloc: Global, model: &IntModel, sweep: &RowSweep) -> Result<Vec<u8>, Memory>
    requires fits { FitsPieces model.now sweep.now.pieces }
    ensures text { IfOk result (λ text. text.items ≡ row_sweep_lines model.now sweep.now.pieces) }
{
    let text = piece_lines(alloc, model, sweep.pieces.as_slice())?;
    Ok(text.into_bytes())
}
