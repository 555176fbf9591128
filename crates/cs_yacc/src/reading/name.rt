// The names of a file's symbols.

ghost use Rattle.std.specs.Prelude.{◌≡◌};

use std::marker::Model;

/// A name: letters, digits, `_` and `.`, as the file spells it.
#[derive(Debug, Drop)]
pub struct Name {
    bytes: Vec<u8>,
}

impl Model for Name {
    ghost use Rattle.std.specs.Prelude.{ℕ, List};

    ghost Value = { List ℕ };

    ghost view = { λ n. n.bytes.items };
}

impl Name {
    /// The name of these bytes.
    pub fn new(bytes: Vec<u8>) -> Name
        ensures { result ≡ bytes.items }
    {
        Name { bytes }
    }

    /// The bytes of the name.
    pub fn bytes(&self) -> &[u8]
        ensures { result.now ≡ self.now }
    {
        &self.bytes
    }
}

/// How a file spells a token: by a name, or by a byte between quotes.
#[derive(Debug, Drop)]
pub enum TokenName {
    Word(Name),
    Byte(u8),
}
