//! The calls of a shelf or a sink in memory, some of which are to fail.

ghost use Rattle.std.specs.Prelude.{◌≡◌, ◌↔◌, ◌<◌, [], length, IfOk, IsTrue};
ghost use Rattle.std.specs.Bool.{OnTrue, OnFalse};
ghost use Rattle.ips_io.specs.Plans.{after_call, failing_at, is_due};

use ip_defs::Memory;
use std::alloc::Global;
use std::marker::Model;

/// The most calls that can be made to fail.
const MOST_FAILING: usize = 8;

/// The calls of a shelf or a sink in memory: how many were made, and the numbers of those that are to fail.
#[derive(Drop)]
pub(crate) struct Plan {
    made: u64,
    failing: Vec<u64>,
}

impl Model for Plan {
    ghost use Rattle.std.specs.Prelude.{◌≤◌, vec_len, vec_capacity};
    ghost use Rattle.ips_io.specs.Plans.{Calls};

    ghost Value = { Calls };

    ghost view = { λ p. record { made = p.made; failing = p.failing.items } };

    ghost invariant = { λ p. (8 ≤ vec_capacity p.failing) × (vec_len p.failing ≤ 8) };
}

impl Plan {
    /// No call made, and none that is to fail. Reserves memory for the numbers of calls.
    pub(crate) fn new(alloc: Global) -> Result<Plan, Memory>
        ensures { IfOk result (λ p. p ≡ record { made = 0; failing = [] }) }
    {
        match Vec::with_capacity(alloc, MOST_FAILING) {
            Ok(failing) => Ok(Plan { made: 0, failing }),
            Err(_) => Err(Memory),
        }
    }

    /// Lists a call that is to fail, by its number from 1. False, and nothing changed, where eight are listed.
    pub(crate) fn fail_at(&mut self, call: u64) -> bool
        ensures room { IsTrue result ↔ (length self.old.failing < 8) }
        ensures listed { OnTrue result (self.new ≡ failing_at call self.old) }
        ensures full { OnFalse result (self.new ≡ self.old) }
    {
        if self.failing.len() == MOST_FAILING {
            return false;
        }
        match self.failing.push(call) {
            Ok(()) => true,
            Err(_) => unreachable!(),
        }
    }

    /// Counts a call, and answers whether it is to fail.
    pub(crate) fn count(&mut self) -> bool
        ensures due { result ≡ is_due self.old }
        ensures counted { self.new ≡ after_call self.old }
    {
        self.made = self.made.saturating_add(1);
        self.failing.contains(&self.made)
    }
}
