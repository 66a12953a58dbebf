//! Standard output.

ghost use Rattle.std.specs.Prelude.{◌≡◌, None, ℕ, Option, List};
ghost use Rattle.std.proofs.Common.{arith};
ghost use Rattle.ips_io.specs.Causes.{shown_count};

use crate::{Failed, Sink};
use std::io::{self, Write};

/// Standard output. What it took is not known.
#[derive(Drop)]
pub struct OutSink<R: Print + Drop> {
    rt: R,
    faults: u64,
}

/// A sink that is standard output, with no failure counted.
pub fn out_sink<R: Print + Drop>(rt: R) -> OutSink<R>
    ensures { result.faults ≡ 0 }
{
    OutSink { rt, faults: 0 }
}

impl<R: Print + Drop> Sink for OutSink<R> {
    ghost taken = { λ s. None };

    ghost faults = { λ s. shown_count s.faults };

    ghost faults_limit = { λ s. Prim.omega arith };

    fn write(&mut self, bytes: &[u8]) -> Result<usize, Failed> {
        match io::writer(&self.rt).write(bytes) {
            Ok(n) => {
                if n > 0 {
                    return Ok(n);
                }
                self.faults = self.faults.saturating_add(1);
                Err(Failed)
            }
            Err(_) => {
                self.faults = self.faults.saturating_add(1);
                Err(Failed)
            }
        }
    }
}
