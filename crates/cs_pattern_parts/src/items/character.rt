// Escapes, and the characters of quoted texts and brackets (POSIX lex, escape sequences).

ghost use Rattle.std.specs.Prelude.{◌≡◌, ◌≤◌, ◌<◌, min, length, slice_get, IfSome, IsSomeAnd, IsTrue};
ghost use Rattle.cs_bytes.specs.Classes.{is_octal_digit};
ghost use Rattle.cs_pattern_parts.specs.Items.Character as spec;
ghost use Rattle.cs_pattern_parts.specs.Items.Parts as parts;

use cs_bytes::{ByteClass, number, run_len};

/// The byte of a number, where it is one.
fn to_byte(number: u32) -> Option<u8>
    ensures { result ≡ parts.byte_of number }
{
    u8::try_from(number).ok()
}

/// The byte for which an escape of one letter stands: its own, but for the control characters that have a letter.
fn letter(byte: u8) -> u8
    ensures { result ≡ parts.letter byte }
{
    match byte {
        b'a' => 7,
        b'b' => 8,
        b't' => 9,
        b'n' => 10,
        b'v' => 11,
        b'f' => 12,
        b'r' => 13,
        other => other,
    }
}

/// Up to three octal digits. There is no byte where the number is above 255.
#[tactic(auto, unfolding(crate::specs::Items::Character::octal))]
fn octal(text: &[u8]) -> (Option<u8>, usize)
    requires { IsSomeAnd (slice_get text.now 0) (λ b. IsTrue (is_octal_digit b)) }
    ensures value { result ≡ spec.octal text.now }
    ensures some { 0 < result.1 }
    ensures within { result.1 ≤ length text.now }
{
    let size = run_len(text, ByteClass::OctalDigit).min(3);
    (to_byte(number(8, &text[..size])), size)
}

/// What stands behind `\x`: one or two hexadecimal digits, else the letter stands for itself. The size counts the `x`.
#[tactic(auto, unfolding(crate::specs::Items::Character::hexadecimal))]
fn hexadecimal(rest: &[u8]) -> (Option<u8>, usize)
    ensures value { result ≡ spec.hexadecimal rest.now }
    ensures within { result.1 ≤ length rest.now }
{
    let size = run_len(rest, ByteClass::HexadecimalDigit).min(2);
    if size == 0 {
        (Some(b'x'), 0)
    } else {
        (to_byte(number(16, &rest[..size])), size)
    }
}

/// The escape behind a backslash: its byte, which is missing where an octal number is above 255, and its size without the
/// backslash. `None` where no byte but a newline follows.
#[tactic(auto, unfolding(crate::specs::Items::Character::escape))]
pub(crate) fn escape(text: &[u8]) -> Option<(Option<u8>, usize)>
    ensures value { result ≡ spec.escape text.now }
    ensures size { IfSome result (λ r. (0 < r.1) × (r.1 ≤ length text.now)) }
{
    let [first, rest @ ..] = text else {
        return None;
    };
    match *first {
        b'\n' => None,
        b'0'..=b'7' => {
            let (byte, size) = octal(text);
            Some((byte, size))
        }
        b'x' => {
            let (byte, size) = hexadecimal(rest);
            Some((byte, size + 1))
        }
        other => Some((Some(letter(other)), 1)),
    }
}
