//! Character literals.

ghost use Rattle.std.specs.Prelude.{◌≡◌, ℕ, ◌-◌, ◌<◌, ◌≤◌, length, drop, IfSome, IfNone};
ghost use Rattle.cs_bytes.specs.Classes.{is_in};
ghost use Rattle.cs_ctext.specs.Literals as spec;
ghost use Rattle.cs_ctext.specs.Scans as scans;

use cs_bytes::{ByteClass, from_offset, has_at, number, run_len};

/// Reads the character literal that begins at `at`, and answers its byte and the offset behind its closing mark.
///
/// Between the quotes stands one byte other than a single quote, a backslash and a newline, or an escape: a backslash with
/// one of `a b f n r t v`, one to three octal digits, `x` and one or two hexadecimal digits, or one of `\ ' " ?`. `None`
/// comes exactly where no literal begins at `at`; none spells 0 or a value above 255.
#[tactic(auto, using(cs_bytes::proofs::Fronts::has_within))]
pub fn read_literal(bytes: &[u8], at: usize) -> Option<(u8, usize)>
    ensures literal { IfSome result (λ read.
        spec.IsLiteral (drop at bytes.now) read.0 (read.1 - at)) }
    ensures within { IfSome result (λ read. (at < read.1) × (read.1 ≤ length bytes.now)) }
    ensures none { IfNone result
        ((byte size : ℕ) → ¬ spec.IsLiteral (drop at bytes.now) byte size) }
{
    if !has_at(bytes, at, b'\'') {
        return None;
    }
    let text = from_offset(bytes, at + 1);
    let (value, size) = character(text)?;
    if value == 0 || value > 255 || !has_at(text, size, b'\'') {
        return None;
    }
    Some((value as u8, at + size + 2))
}

/// The value and the size of the character in front of the text.
fn character(text: &[u8]) -> Option<(u32, usize)>
    ensures value { result ≡ scans.character_of text.now }
    ensures within { IfSome result (λ read. read.1 ≤ length text.now) }
{
    let [first, rest @ ..] = text else {
        return None;
    };
    match *first {
        b'\'' | b'\n' => None,
        b'\\' => {
            let (value, size) = escape(rest)?;
            Some((value, size + 1))
        }
        byte => Some((u32::from(byte), 1)),
    }
}

/// The value and the size of what stands behind a backslash.
fn escape(text: &[u8]) -> Option<(u32, usize)>
    ensures value { result ≡ scans.escape_of text.now }
    ensures within { IfSome result (λ read. read.1 ≤ length text.now) }
{
    let [first, rest @ ..] = text else {
        return None;
    };
    match *first {
        b'x' => {
            let (value, size) = digits(rest, ByteClass::HexadecimalDigit, 16, 2)?;
            Some((value, size + 1))
        }
        b'0'..=b'7' => digits(text, ByteClass::OctalDigit, 8, 3),
        byte => {
            let value = escaped_byte(byte)?;
            Some((u32::from(value), 1))
        }
    }
}

/// The byte that a backslash and this one spell.
fn escaped_byte(byte: u8) -> Option<u8>
    ensures { result ≡ spec.escaped_byte byte }
{
    match byte {
        b'a' => Some(7),
        b'b' => Some(8),
        b'f' => Some(12),
        b'n' => Some(b'\n'),
        b'r' => Some(b'\r'),
        b't' => Some(b'\t'),
        b'v' => Some(11),
        b'\\' | b'\'' | b'"' | b'?' => Some(byte),
        _ => None,
    }
}

/// The number of up to `most` digits in front of the text, and their count; `None` where none stands there.
fn digits(text: &[u8], class: ByteClass, base: u32, most: usize) -> Option<(u32, usize)>
    requires base { base ≤ 16 }
    requires few { most ≤ 3 }
    ensures value { result ≡ scans.digits_of (is_in class) base most text.now }
    ensures within { IfSome result (λ read. read.1 ≤ length text.now) }
{
    let size = run_len(text, class).min(most);
    if size == 0 {
        return None;
    }
    Some((number(base, &text[..size]), size))
}
