// Quoted texts of patterns.

ghost use Rattle.std.specs.Prelude.{◌≡◌, ◌≤◌, ◌<◌, ℕ, length, drop, IfSome, IfNone, IsTrue};
ghost use Rattle.cs_bytes.specs.Names.{double_quote};
ghost use Rattle.cs_bytes.specs.Places.{begins_with};
ghost use Rattle.cs_lex.specs.Layout.Patterns as spec;
ghost use Rattle.cs_lex.specs.Layout.Steps.{Walk, Spans, HasSize};

use crate::layout::unit::is_escape;
use cs_bytes::{from_offset, has_at};

fn is_quoted_byte(byte: u8) -> bool
    ensures { result ≡ spec.is_quoted_byte byte }
{
    !matches!(byte, b'"' | b'\\' | b'\n')
}

/// The size of the escape or byte in front, or 0.
fn quoted_unit_size(text: &[u8]) -> usize
    ensures size { result ≡ spec.quoted_unit_size text.now }
    ensures within { result ≤ length text.now }
{
    if is_escape(text) {
        return 2;
    }
    match text {
        [byte, ..] if is_quoted_byte(*byte) => 1,
        _ => 0,
    }
}

/// How many bytes the escapes and bytes in front take.
fn quoted_len(text: &[u8]) -> usize
    ensures units { Walk (Spans (HasSize spec.quoted_unit_size) text.now) 0 result }
    ensures ends { spec.quoted_unit_size (drop result text.now) ≡ 0 }
    ensures within { result ≤ length text.now }
{
    let mut at = 0;
    let mut size = quoted_unit_size(text);
    while size > 0 {
        at += size;
        size = quoted_unit_size(from_offset(text, at));
    }
    at
}

/// The size of the quoted text in front, where it is closed on its line.
pub(crate) fn quoted_size(text: &[u8]) -> Option<usize>
    requires { IsTrue (begins_with double_quote text.now) }
    ensures closed { IfSome result (λ size. spec.IsQuotedText text.now size) }
    ensures within { IfSome result (λ size. (0 < size) × (size ≤ length text.now)) }
    ensures unclosed { IfNone result ((size : ℕ) → ¬ spec.IsQuotedText text.now size) }
{
    let rest = from_offset(text, 1);
    let inside = quoted_len(rest);
    if has_at(rest, inside, b'"') {
        Some(inside + 2)
    } else {
        None
    }
}
