//! A sink of output in memory.

ghost use Rattle.std.specs.Prelude.{◌≡◌, ◌↔◌, ◌<◌, ◌≤◌, [], length, take, IfOk, OnErr, IsTrue, IsOk, Some, false};
ghost use Rattle.std.specs.Bool.{OnTrue, OnFalse};
ghost use Rattle.ips_io.specs.Files.{Takes};
ghost use Rattle.ips_io.specs.Causes.{HasCause, shown_count};
ghost use Rattle.std.proofs.Common.{arith};
ghost use Rattle.ips_io.specs.MemSinks.{after_write, refuses, taken_at_once};
ghost use Rattle.ips_io.specs.Plans.{failing_at};

use crate::plans::Plan;
use crate::{Failed, Sink};
use ip_defs::Memory;
use std::alloc::Global;
use std::marker::Model;

/// A sink that keeps what it takes in memory, within a room that it reserves when it is made. Its calls take no memory.
#[derive(Drop)]
pub struct MemSink {
    bytes: Vec<u8>,
    room: u64,
    piece: u64,
    plan: Plan,
    faults: u64,
}

impl Model for MemSink {
    ghost use Rattle.std.specs.Prelude.{◌<◌, ◌≤◌, vec_len, vec_capacity};
    ghost use Rattle.ips_io.specs.MemSinks.{SinkState};

    ghost Value = { SinkState };

    ghost view = { λ s. record { taken = s.bytes.items; room = s.room; piece = s.piece; calls = s.plan; faults = s.faults } };

    ghost invariant = { λ s. (s.room ≤ vec_capacity s.bytes) × (vec_len s.bytes ≤ s.room) × (0 < s.piece) };
}

/// A sink that has taken nothing, with room for `bytes` bytes in all, of which a call takes at most `piece`.
pub fn mem_sink(alloc: Global, bytes: u64, piece: u64) -> Result<MemSink, Memory>
    requires { 0 < piece }
    ensures { IfOk result (λ s. s ≡ record {
      taken = [];
      room = bytes;
      piece = piece;
      calls = record { made = 0; failing = [] };
      faults =
          0;
    }) }
{
    let plan = match Plan::new(alloc) {
        Ok(plan) => plan,
        Err(memory) => return Err(memory),
    };
    match Vec::with_capacity(alloc, bytes as usize) {
        Ok(reserved) => Ok(MemSink {
            bytes: reserved,
            room: bytes,
            piece,
            plan,
            faults: 0,
        }),
        Err(_) => Err(Memory),
    }
}

impl MemSink {
    /// All bytes taken.
    pub fn bytes(&self) -> &[u8]
        ensures { result.now ≡ self.now.taken }
    {
        self.bytes.as_slice()
    }

    /// Lists a call of `write` that is to fail, by its number from 1. False, and nothing changed, exactly where eight are listed.
    pub fn fail_at(&mut self, call: u64) -> bool
        ensures room { IsTrue result ↔ (length self.old.calls.failing < 8) }
        ensures listed { OnTrue result (self.new ≡ record self.old { calls = failing_at call self.old.calls }) }
        ensures full { OnFalse result (self.new ≡ self.old) }
    {
        self.plan.fail_at(call)
    }
}

impl Sink for MemSink {
    ghost taken = { λ s. Some s.taken };

    ghost faults = { λ s. shown_count s.faults };

    ghost faults_limit = { λ s. Prim.omega arith };

    /// Takes as many bytes as the piece and the room allow. Fails where the call is listed or no room is left.
    fn write(&mut self, bytes: &[u8]) -> Result<usize, Failed>
        requires { 0 < length bytes.now }
        ensures some { IfOk result (λ n. 0 < n) }
        ensures bound { IfOk result (λ n. n ≤ length bytes.now) }
        ensures takes { IfOk result (λ n. Takes (Some self.old.taken) (Some self.new.taken) (take n bytes.now)) }
        ensures err { OnErr result (self.new.taken ≡ self.old.taken) }
        ensures cause { HasCause (shown_count self.old.faults) (shown_count self.new.faults) result }
        ensures answers { IsOk result ↔ (refuses self.old ≡ false) }
        ensures count { IfOk result (λ n. n ≡ taken_at_once self.old bytes.now) }
        ensures state { self.new ≡ after_write self.old bytes.now }
    {
        let due = self.plan.count();
        let left = self.room - self.bytes.len() as u64;
        if due || left == 0 {
            self.faults = self.faults.saturating_add(1);
            return Err(Failed);
        }
        let n = (self.piece.min(left) as usize).min(bytes.len());
        match self.bytes.extend_from_slice(&bytes[..n]) {
            Ok(()) => Ok(n),
            Err(_) => unreachable!(),
        }
    }
}
