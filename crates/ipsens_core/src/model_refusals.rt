//! The printed text of the refusal of a model file.

ghost use Rattle.std.specs.Prelude.{◌≡◌, ◌≢◌, ◌++◌, IfOk, codes, decimal, string_bytes};
ghost use Rattle.ipsens_core.specs.ModelRefusals.{on_column, refusal_text, refused_model, side_text, what_text};

use ip_defs::{Limit, What};
use mps_defs::{MpsError, Side};
use std::alloc::{AllocError, Global};

/// What is printed for a model file that is too long.
pub const TOO_LONG: &str = "refused model too long\n";

/// What is printed for a model without a canonical text.
pub const UNPRINTABLE: &str = "refused model unprintable\n";

/// The line of a refused model text.
pub fn refusal_line(alloc: Global, error: &MpsError) -> Result<String, AllocError>
    requires { error.now ≢ MpsError.Memory }
    ensures { IfOk result (λ s. string_bytes s ≡ refused_model (refusal_text error.now)) }
{
    match error {
        MpsError::NotUtf8 => String::from_str(alloc, "refused model M1\n"),
        MpsError::SectionOrder { line } => format!(in alloc; "refused model M2 line {line}\n"),
        MpsError::UnknownSection { line } => format!(in alloc; "refused model M3 line {line}\n"),
        MpsError::FieldCount { line } => format!(in alloc; "refused model M4 line {line}\n"),
        MpsError::RowKind { line } => format!(in alloc; "refused model M5 line {line}\n"),
        MpsError::TwiceRow { line } => format!(in alloc; "refused model M6 line {line}\n"),
        MpsError::UnknownRow { line } => format!(in alloc; "refused model M7 line {line}\n"),
        MpsError::SplitColumn { line } => format!(in alloc; "refused model M8 line {line}\n"),
        MpsError::TwiceEntry { line } => format!(in alloc; "refused model M9 line {line}\n"),
        MpsError::Number { line } => format!(in alloc; "refused model M10 line {line}\n"),
        MpsError::Marker { line } => format!(in alloc; "refused model M11 line {line}\n"),
        MpsError::BoundKind { line } => format!(in alloc; "refused model M12 line {line}\n"),
        MpsError::UnknownColumn { line } => format!(in alloc; "refused model M13 line {line}\n"),
        MpsError::Continuous { column } => {
            let column = column.as_str();
            format!(in alloc; "refused model M14 column {column}\n")
        }
        MpsError::NoBound { column, side } => no_bound_line(alloc, column.as_str(), *side),
        MpsError::NegativeUpper { column } => {
            let column = column.as_str();
            format!(in alloc; "refused model M16 column {column}\n")
        }
        MpsError::Limit { limit } => limit_line(alloc, limit),
        MpsError::NoObjective => String::from_str(alloc, "refused model M18\n"),
        MpsError::NoEnd => String::from_str(alloc, "refused model M19\n"),
        MpsError::Digits { line } => format!(in alloc; "refused model M20 line {line}\n"),
        MpsError::Memory => unreachable!(),
    }
}

fn no_lower_line(alloc: Global, column: &str) -> Result<String, AllocError>
    ensures { IfOk result (λ s. string_bytes s ≡ codes "refused model M15 column " ++ column.now ++ codes " lower\n") }
{
    format!(in alloc; "refused model M15 column {column} lower\n")
}

fn no_upper_line(alloc: Global, column: &str) -> Result<String, AllocError>
    ensures { IfOk result (λ s. string_bytes s ≡ codes "refused model M15 column " ++ column.now ++ codes " upper\n") }
{
    format!(in alloc; "refused model M15 column {column} upper\n")
}

fn no_bound_line(alloc: Global, column: &str, side: Side) -> Result<String, AllocError>
    ensures { IfOk result (λ s. string_bytes s ≡ refused_model (codes "M15" ++ on_column column.now ++ side_text side)) }
{
    match side {
        Side::Lower => no_lower_line(alloc, column),
        Side::Upper => no_upper_line(alloc, column),
    }
}

fn limit_line(alloc: Global, limit: &Limit) -> Result<String, AllocError>
    ensures { IfOk result (λ s. string_bytes s ≡ refused_model (codes "M17 " ++ what_text limit.now.what ++ codes " " ++ decimal
        limit.now.index)) }
{
    let what = what_word(limit.what);
    let index = limit.index;
    format!(in alloc; "refused model M17 {what} {index}\n")
}

fn what_word(what: What) -> &'static str
    ensures { result.now ≡ what_text what }
{
    match what {
        What::Columns => "columns",
        What::Rows => "rows",
        What::Entries => "entries",
        What::Name => "name",
        What::Cost => "cost",
        What::Lower => "lower",
        What::Upper => "upper",
        What::RowName => "rowname",
        What::Coef => "coef",
        What::Side => "side",
        What::Objective => "objective",
        What::Constant => "constant",
    }
}
