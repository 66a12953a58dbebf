//! The set of a section that counts: the first one named.

ghost use Rattle.std.specs.Prelude.{◌≡◌, None, Some, IfOk, bytes_eq, option_map, string_bytes, unwrap_or, OnOk};

use std::alloc::{AllocError, Global};

/// Keeps the name of the first set of a section, and answers whether this set is the kept one.
pub fn keep_set(alloc: Global, kept: &mut Option<String>, set: &str) -> Result<bool, AllocError>
    ensures kept { OnOk result (option_map string_bytes kept.new ≡ Some (unwrap_or (option_map string_bytes kept.old) set.now)) }
    ensures same { IfOk result (λ b. b ≡ bytes_eq (unwrap_or (option_map string_bytes kept.old) set.now) set.now) }
{
    match kept {
        Some(first) => Ok(first.as_str() == set),
        None => {
            *kept = Some(String::from_str(alloc, set)?);
            Ok(true)
        }
    }
}
