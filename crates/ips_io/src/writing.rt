//! Writing a whole text.

ghost use Rattle.std.specs.Prelude.{◌≡◌, ℕ, take, OnOk, OnErr};
ghost use Rattle.ips_io.specs.Files.{Takes};
ghost use Rattle.ips_io.specs.Causes.{HasCause};

use crate::{Failed, Sink};

/// Writes all bytes of a text, piece by piece. Where the sink fails, it has taken the bytes before.
pub fn write_all<K: Sink>(out: &mut K, bytes: &[u8]) -> Result<(), Failed>
    ensures cause { HasCause (K.faults out.old) (K.faults out.new) result }
    ensures all { OnOk result (Takes (K.taken out.old) (K.taken out.new) bytes.now) }
    ensures part { OnErr result ((n : ℕ) × Takes (K.taken out.old) (K.taken out.new) (take n bytes.now)) }
{
    let mut done = 0;
    while done < bytes.len() {
        match out.write(&bytes[done..]) {
            Ok(n) => done += n,
            Err(failed) => return Err(failed),
        }
    }
    Ok(())
}
