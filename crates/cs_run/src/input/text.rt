// The bytes of a text.

ghost use Rattle.std.specs.Prelude.{◌≡◌};

use std::marker::Model;

/// The bytes of a text that is to be scanned.
#[derive(Debug, Drop)]
pub struct TextBytes {
    bytes: Vec<u8>,
}

impl Model for TextBytes {
    ghost use Rattle.std.specs.Prelude.{ℕ, List};

    ghost Value = { List ℕ };

    ghost view = { λ t. t.bytes.items };
}

impl TextBytes {
    /// The text of these bytes.
    pub fn new(bytes: Vec<u8>) -> TextBytes
        ensures { result ≡ bytes.items }
    {
        TextBytes { bytes }
    }

    /// The bytes, in order.
    pub fn bytes(&self) -> &[u8]
        ensures { result.now ≡ self.now }
    {
        &self.bytes
    }
}
