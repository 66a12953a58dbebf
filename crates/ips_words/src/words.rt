//! The request of the words of a command line.

ghost use Rattle.std.specs.Prelude.{◌≡◌, Some, None, Err, IfOk, map, string_bytes};
ghost use Rattle.ips_words.specs.Commands.{request_of};
ghost use Rattle.ips_words.specs.Requests.{AreInRange, IsBuilt};

use crate::by_command::request_by;
use crate::commands::Command;
use crate::parser::parsed;
use crate::plain::are_plain;
use crate::requests::{Request, WordsError};
use std::alloc::Global;

/// The request of the words of a command line: a command, its operands, then options of two words each, in any order and each at most
/// once. All other words, and those of a command or an option that is not built yet, are Usage; Memory comes only where memory runs out.
pub fn request(alloc: Global, words: &[String]) -> Result<Request, WordsError>
    ensures request { IfOk result (λ q. request_of (map string_bytes words.now) ≡ Some q) }
    ensures ranges { IfOk result AreInRange }
    ensures built { IfOk result IsBuilt }
    ensures usage { result ≡ Err WordsError.Usage → request_of (map string_bytes words.now) ≡ None }
{
    let (first, rest) = match words {
        [first, rest @ ..] => (first.as_str(), rest),
        [] => return Err(WordsError::Usage),
    };
    let command = match Command::named(first) {
        Some(command) => command,
        None => return Err(WordsError::Usage),
    };
    if !are_plain(command, rest) {
        return Err(WordsError::Usage);
    }
    let matches = match parsed(alloc, words) {
        Ok(matches) => matches,
        Err(_) => return Err(WordsError::Memory),
    };
    match request_by(alloc, command, &matches) {
        Ok(request) => Ok(request),
        Err(_) => Err(WordsError::Memory),
    }
}
