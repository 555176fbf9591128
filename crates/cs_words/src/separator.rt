// What stands between the lexemes of a text.

ghost use Rattle.std.specs.Prelude.{◌≡◌, ◌≤◌, ◌<◌, [], ◌∷◌, ◌++◌, length};
ghost use Rattle.std.specs.Bool.{OnTrue, OnFalse};
ghost use Rattle.cs_bytes.specs.Names as byte_names;

use arrayvec::ArrayVec;
use std::marker::Model;

// Most bytes of a separator.
const MOST_BYTES: usize = 64;

/// The bytes that stand between the lexemes of a text: at most 64.
#[derive(Drop)]
pub struct Separator {
    bytes: ArrayVec<u8, MOST_BYTES>,
}

impl Model for Separator {
    ghost use Rattle.std.specs.Prelude.{List, ℕ};

    ghost Value = { List ℕ };

    ghost view = { λ s. s.bytes.items };
}

impl Separator {
    /// No bytes.
    pub(crate) fn new() -> Separator
        ensures { result ≡ [] }
    {
        Separator {
            bytes: ArrayVec::new(),
        }
    }

    /// One space.
    pub fn space() -> Separator
        ensures { result ≡ byte_names.space ∷ [] }
    {
        let mut space = Separator::new();
        space.push(b' ');
        space
    }

    /// Adds a byte, or gives false where there are 64.
    pub(crate) fn push(&mut self, byte: u8) -> bool
        ensures pushed { OnTrue result (self.new ≡ self.old ++ byte ∷ []) }
        ensures few { OnTrue result (length self.new ≤ 64) }
        ensures full { OnFalse result (64 ≤ length self.old) }
        ensures kept { OnFalse result (self.new ≡ self.old) }
    {
        self.bytes.try_push(byte).is_ok()
    }

    /// The bytes, in order.
    pub fn bytes(&self) -> &[u8]
        ensures bytes { result.now ≡ self.now }
        ensures few { length result.now ≤ 64 }
    {
        self.bytes.as_slice()
    }
}
