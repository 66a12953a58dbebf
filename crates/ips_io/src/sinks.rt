//! Sinks: output that is taken piece by piece, whose failures are counted.

ghost use Rattle.std.specs.Prelude.{◌≡◌, ◌<◌, ◌≤◌, ◌-◌, ◌^◌, ℕ, List, Option, length, take, IfOk, OnErr};
ghost use Rattle.ips_io.specs.Files.{Takes};
ghost use Rattle.ips_io.specs.Causes.{HasCause};

use crate::Failed;

/// Output: bytes are taken piece by piece. A call that succeeds leaves the count of failures as it was, and one that fails raises it by
/// one, up to 2^64 - 1.
pub trait Sink {
    /// The bytes taken so far, where they are known.
    ghost taken: { Self → Option (List ℕ) };

    /// The failures so far.
    ghost faults: { Self → ℕ };

    /// Takes bytes from the front of a text, at least one, and gives their number. To take none is a failure.
    fn write(&mut self, bytes: &[u8]) -> Result<usize, Failed>
        requires { 0 < length bytes.now }
        ensures some { IfOk result (λ n. 0 < n) }
        ensures bound { IfOk result (λ n. n ≤ length bytes.now) }
        ensures takes { IfOk result (λ n. Takes (taken self.old) (taken self.new) (take n bytes.now)) }
        ensures err { OnErr result (taken self.new ≡ taken self.old) }
        ensures cause { HasCause (faults self.old) (faults self.new) result };

    /// The count of failures is at most 2^64 - 1.
    ghost faults_limit: { (s : Self) → faults s ≤ 2 ^ 64 - 1 };
}
