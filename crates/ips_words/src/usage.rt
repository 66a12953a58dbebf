//! The line that is printed for words that are no request.

ghost use Rattle.std.specs.Prelude.{◌≡◌};
ghost use Rattle.ips_words.specs.Requests.{usage_text};

/// What is printed for words that are no request.
pub const USAGE: &[u8] =
    b"usage: ipsens solve MODEL | check MODEL TREE | ask MODEL TREE QUESTIONS | \
    sweep MODEL SWEEP | recheck MODEL SWEEP PROOF | show MODEL | trial N\n";

/// The line is the text of the definitions.
pub fn usage_is_text()
    ensures { USAGE.now ≡ usage_text }
{}
