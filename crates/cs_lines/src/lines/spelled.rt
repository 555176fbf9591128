// How the bytes of a text are spelled between double quotes: each in one way.

ghost use Rattle.std.specs.Prelude.{◌≡◌, ◌↔◌, ℕ, IsTrue, MatchOption};
ghost use Rattle.cs_lines.specs.Words.Words.{is_plain_text};
ghost use Rattle.cs_lines.specs.Lines.Spelled.{AreSpelled, BeginsUnspelled, IsDigitOf};
ghost use Rattle.cs_lines.specs.Lines.Taken.{IsFront, AreDigitsOf, AreNoDigits, BeginsEscaped, BeginsUnescaped};

use cs_bytes::from_offset;

/// A byte of a text, and how many bytes spell it.
#[derive(Clone, Copy)]
pub(crate) struct SpelledByte {
    pub(crate) byte: u8,
    pub(crate) size: usize,
}

fn is_plain(byte: u8) -> bool
    ensures { result ≡ is_plain_text byte }
{
    b' ' <= byte && byte <= b'~' && byte != b'"' && byte != b'\\'
}

// The number of which the byte is the digit.
fn digit_value(byte: u8) -> Option<u8>
    ensures { MatchOption result ((n : ℕ) → IsDigitOf n byte → ⊥) (λ n. IsDigitOf n byte) }
{
    match byte {
        b'0'..=b'9' => Some(byte - b'0'),
        b'a'..=b'f' => Some(byte - b'a' + 10),
        _ => None,
    }
}

// The byte that two digits spell.
fn value_of(high: u8, low: u8) -> Option<u8>
    ensures { MatchOption result (AreNoDigits high low) (AreDigitsOf high low) }
{
    let high = digit_value(high)?;
    let low = digit_value(low)?;
    Some(high * 16 + low)
}

// The byte whose escape stands in front.
fn escaped_byte(text: &[u8]) -> Option<u8>
    ensures { MatchOption result (BeginsUnescaped text.now) (BeginsEscaped text.now) }
{
    match text {
        [b'\\', b'x', high, low, ..] => value_of(*high, *low),
        _ => None,
    }
}

/// The byte that is spelled in front.
pub(crate) fn front_byte(text: &[u8]) -> Option<SpelledByte>
    ensures { MatchOption result (BeginsUnspelled text.now) (IsFront text.now) }
{
    let [first, ..] = text else {
        return None;
    };
    if is_plain(*first) {
        return Some(SpelledByte {
            byte: *first,
            size: 1,
        });
    }
    let byte = escaped_byte(text)?;
    if is_plain(byte) {
        None
    } else {
        Some(SpelledByte { byte, size: 4 })
    }
}

/// Whether the bytes spell a text.
pub(crate) fn are_spelled(spelled: &[u8]) -> bool
    ensures { IsTrue result ↔ AreSpelled spelled.now }
{
    let mut rest = spelled;
    while let Some(front) = front_byte(rest) {
        rest = from_offset(rest, front.size);
    }
    rest.is_empty()
}
