// Quoted texts.

ghost use Rattle.std.specs.Prelude.{◌≡◌, ◌<◌, ◌≤◌, length, IfSome, IfOk, option_map};
ghost use Rattle.cs_pattern_parts.specs.Items.Quoted as spec;

use crate::items::character::escape;
use cs_bytes::{from_offset, has_at};
use std::alloc::{AllocError, Global};

/// The byte at the front of a quoted text, and its size.
#[tactic(auto, unfolding(crate::specs::Items::Quoted::quoted_byte))]
fn quoted_byte(text: &[u8]) -> Option<(u8, usize)>
    ensures value { result ≡ spec.quoted_byte text.now }
    ensures size { IfSome result (λ r. (0 < r.1) × (r.1 ≤ length text.now)) }
{
    let [first, rest @ ..] = text else {
        return None;
    };
    match *first {
        b'\n' | b'"' => None,
        b'\\' => {
            let (byte, size) = escape(rest)?;
            Some((byte?, size + 1))
        }
        other => Some((other, 1)),
    }
}

/// The bytes of the quoted text behind a double quote, and its size with the closing quote. `None` where it is not closed or
/// holds an escape that is none.
pub(crate) fn quoted(alloc: Global, text: &[u8]) -> Result<Option<(Vec<u8>, usize)>, AllocError>
    ensures value { IfOk result (λ r.
        option_map (λ p. (p.0.items, p.1)) r ≡ spec.quoted text.now) }
    ensures size { IfOk result (λ r. IfSome r (λ p. p.1 ≤ length text.now)) }
{
    let mut bytes = Vec::new(alloc);
    let mut at = 0;
    while let Some((byte, size)) = quoted_byte(from_offset(text, at)) {
        bytes.push(byte)?;
        at += size;
    }
    if has_at(text, at, b'"') {
        Ok(Some((bytes, at + 1)))
    } else {
        Ok(None)
    }
}
