//! Models: programs within their limits.
ghost use Rattle.std.specs.Prelude.{◌≡◌, [], IfOk, IfErr, Some};
ghost use Rattle.ip_defs.specs.Lists.{first_of};
ghost use Rattle.ip_defs.specs.Limits.{IsWellShaped, IsWithinLimits, limits_of};

use crate::limits::first_limit;
use ip_defs::{Limit, Parts};
use std::marker::Model;

/// An integer program that is well shaped and within every limit. Contracts see it as its parts.
#[derive(Debug, Drop)]
pub struct IntModel {
    parts: Parts,
}

impl Model for IntModel {
    ghost use Rattle.ip_defs.specs.declared.programs.Parts.{Parts};
    ghost use Rattle.ip_defs.specs.Limits.{IsWithinLimits};

    ghost Value = { Parts };

    ghost view = { λ m. m.parts };

    ghost invariant = { λ m. IsWithinLimits m.parts };
}

impl IntModel {
    /// The parts of the program, which are within the limits.
    pub fn parts(&self) -> &Parts
        ensures parts { result.now ≡ self.now }
        ensures limits { IsWithinLimits self.now }
    {
        &self.parts
    }
}

/// Makes the model of well shaped parts. Allocates nothing. If the parts exceed a limit, the error returns them with the first such
/// limit, in the order of `What`: the three counts, the columns by number, the rows by number, the objective's name, the constant.
pub fn make(parts: Parts) -> Result<IntModel, (Parts, Limit)>
    requires { IsWellShaped parts }
    ensures model { IfOk result (λ m. m ≡ parts) }
    ensures within { IfOk result (λ m. limits_of parts ≡ []) }
    ensures handed_back { IfErr result (λ e. e.0 ≡ parts) }
    ensures first { IfErr result (λ e. first_of (limits_of parts) ≡ Some e.1) }
{
    match first_limit(&parts) {
        Some(limit) => Err((parts, limit)),
        None => Ok(IntModel { parts }),
    }
}
