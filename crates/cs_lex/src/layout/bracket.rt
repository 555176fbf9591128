// Brackets of patterns.

ghost use Rattle.std.specs.Prelude.{◌≡◌, ◌≤◌, ◌<◌, ◌+◌, ℕ, length, drop, IfSome, IfNone, IsTrue};
ghost use Rattle.cs_bytes.specs.Names.{opening_bracket};
ghost use Rattle.cs_bytes.specs.Places.{begins_with};
ghost use Rattle.cs_lex.specs.Layout.Patterns as spec;
ghost use Rattle.cs_lex.specs.Layout.Steps.{Walk, Spans, HasSize};

use crate::layout::unit::is_escape;
use cs_bytes::{ByteClass, from_offset, has_at, run_end, run_len};

/// What may stand in a named part.
const INNER: ByteClass = ByteClass::Neither(b']', b'\n');

fn is_bracket_byte(byte: u8) -> bool
    ensures { result ≡ spec.is_bracket_byte byte }
{
    !matches!(byte, b']' | b'\\' | b'\n')
}

fn is_part_mark(byte: u8) -> bool
    ensures { result ≡ spec.is_part_mark byte }
{
    byte == b':' || byte == b'.' || byte == b'='
}

/// Whether `[` and the mark of a named part begin the text.
fn opens_part(text: &[u8]) -> bool
    ensures { result ≡ spec.opens_part text.now }
{
    match text {
        [b'[', mark, ..] => is_part_mark(*mark),
        _ => false,
    }
}

/// Whether the mark stands again behind so many bytes of the named part in front, and `]` behind it.
fn closes_part(text: &[u8], len: usize) -> bool
    requires { len + 2 ≤ length text.now }
    ensures { result ≡ spec.closes_part len text.now }
{
    has_at(text, len + 2, b']') && len > 0 && text[len + 1] == text[1]
}

/// The size of the named part in front, or 0, where so many bytes stand behind its mark before the next `]` or newline.
#[tactic(auto, using(crate::proofs::OnLayout::Units::part_within))]
fn named_size(text: &[u8], len: usize) -> usize
    requires { len ≡ spec.part_len text.now }
    ensures size { result ≡ spec.named_size text.now }
    ensures within { result ≤ length text.now }
{
    if opens_part(text) && closes_part(text, len) {
        len + 3
    } else {
        0
    }
}

/// The size of the escape, named part or byte in front, or 0, where so many bytes stand behind a named part's mark before the
/// next `]` or newline.
fn member_size(text: &[u8], len: usize) -> usize
    requires { len ≡ spec.part_len text.now }
    ensures size { result ≡ spec.member_size text.now }
    ensures within { result ≤ length text.now }
{
    if is_escape(text) {
        return 2;
    }
    let named = named_size(text, len);
    if named > 0 {
        return named;
    }
    match text {
        [byte, ..] if is_bracket_byte(*byte) => 1,
        _ => 0,
    }
}

/// How many bytes the members in front take.
fn members_len(text: &[u8]) -> usize
    ensures units { Walk (Spans (HasSize spec.member_size) text.now) 0 result }
    ensures ends { spec.member_size (drop result text.now) ≡ 0 }
    ensures within { result ≤ length text.now }
{
    let mut at = 0;
    let mut end = run_end(text, INNER, 2, run_len(text, INNER));
    let mut size = member_size(text, end - 2);
    while size > 0 {
        at += size;
        end = run_end(text, INNER, at + 2, end);
        size = member_size(from_offset(text, at), end - (at + 2));
    }
    at
}

/// 1 where the byte stands at the index, else 0.
fn one_if_at(text: &[u8], index: usize, byte: u8) -> usize
    ensures one { result ≡ spec.one_if (begins_with byte (drop index text.now)) }
    ensures within { index ≤ length text.now → index + result ≤ length text.now }
{
    if has_at(text, index, byte) { 1 } else { 0 }
}

/// The size of the `[` with a `^` and a `]` that directly follow it.
fn opening_size(text: &[u8]) -> usize
    requires { IsTrue (begins_with opening_bracket text.now) }
    ensures size { result ≡ spec.opening_size text.now }
    ensures within { result ≤ length text.now }
{
    let turned = 1 + one_if_at(text, 1, b'^');
    turned + one_if_at(text, turned, b']')
}

/// The size of the bracket in front, where it is closed on its line.
pub(crate) fn bracket_size(text: &[u8]) -> Option<usize>
    requires { IsTrue (begins_with opening_bracket text.now) }
    ensures closed { IfSome result (λ size. spec.IsBracket text.now size) }
    ensures within { IfSome result (λ size. (0 < size) × (size ≤ length text.now)) }
    ensures unclosed { IfNone result ((size : ℕ) → ¬ spec.IsBracket text.now size) }
{
    let opening = opening_size(text);
    let rest = from_offset(text, opening);
    let inside = members_len(rest);
    if has_at(rest, inside, b']') {
        Some(opening + inside + 1)
    } else {
        None
    }
}
