//! Names, which contracts see as their bytes.

ghost use Rattle.std.specs.Prelude.{◌≡◌, string_bytes};

use std::fmt;
use std::marker::Model;

/// The name of a column, a row or a file. Contracts see it as its UTF-8 bytes.
#[derive(Debug, Drop)]
pub struct Name {
    text: String,
}

impl Model for Name {
    ghost use Rattle.std.specs.Prelude.{List, ℕ, string_bytes};

    ghost Value = { List ℕ };

    ghost view = { λ n. string_bytes n.text };
}

impl Name {
    /// Makes a name of a text. Allocates nothing.
    pub fn new(text: String) -> Name
        ensures { result ≡ string_bytes text }
    {
        Name { text }
    }

    /// The text of the name.
    pub fn as_str(&self) -> &str
        ensures { result.now ≡ self.now }
    {
        self.text.as_str()
    }
}

impl fmt::Display for Name {
    fn fmt<W: fmt::Write>(&self, f: &mut fmt::Formatter<W>) -> fmt::Result {
        let text = self.as_str();
        write!(f, "{text}")
    }
}
