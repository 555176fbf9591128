// A text between double quotes.

use crate::lines::spelled::{are_spelled, front_byte};
use cs_bytes::from_offset;
use std::alloc::{AllocError, Global};

/// A text as it stands between double quotes.
#[derive(Clone, Copy)]
pub struct Quoted<'m> {
    spelled: &'m [u8],
}

impl<'m> Quoted<'m> {
    ghost use Rattle.std.specs.Prelude.{◌≡◌, ℕ, List, length, MatchOption, IfOk};
    ghost use Rattle.cs_lines.specs.Lines.Read.{IsText};
    ghost use Rattle.cs_lines.specs.Lines.Taken.{IsQuotedAs, IsNotQuoted};

    // The text that these bytes are with its quotes.
    pub(crate) fn new(bytes: &'m [u8]) -> Option<Quoted<'m>>
        ensures { MatchOption result (IsNotQuoted bytes.entry.now) (IsQuotedAs bytes.entry.now) }
    {
        match bytes {
            [b'"', spelled @ .., b'"'] if are_spelled(spelled) => Some(Quoted { spelled }),
            _ => None,
        }
    }

    /// How many bytes the text has.
    pub fn len(self) -> usize
        ensures { (text : List ℕ) → IsText self.entry text → result ≡ length text }
    {
        let mut len = 0;
        let mut rest = self.spelled;
        while let Some(front) = front_byte(rest) {
            len += 1;
            rest = from_offset(rest, front.size);
        }
        len
    }

    /// The bytes of the text.
    pub fn bytes(self, alloc: Global) -> Result<Vec<u8>, AllocError>
        ensures { IfOk result (λ bytes. (t : List ℕ) → IsText self.entry t → bytes.items ≡ t) }
    {
        let mut bytes = Vec::with_capacity(alloc, self.spelled.len())?;
        let mut rest = self.spelled;
        while let Some(front) = front_byte(rest) {
            bytes.push(front.byte)?;
            rest = from_offset(rest, front.size);
        }
        Ok(bytes)
    }
}
