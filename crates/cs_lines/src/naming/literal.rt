// Bytes between single quotes.

ghost use Rattle.std.specs.Prelude.{◌≡◌, ◌↔◌, ◌<◌, IsTrue};
ghost use Rattle.cs_lines.specs.Words.Names.{token_text};
ghost use Rattle.cs_lines.specs.Words.Words as words;

use cs_bytes::same_bytes;
use cs_yacc::TokenName;

fn is_plain_literal(byte: u8) -> bool
    ensures { result ≡ words.is_plain_literal byte }
{
    (b'!'..=b'~').contains(&byte) && byte != b'\'' && byte != b'\\'
}

fn hexadecimal_digit(value: u8) -> u8
    requires { value < 16 }
    ensures { result ≡ words.hexadecimal_digit value }
{
    if value <= 9 {
        b'0' + value
    } else {
        b'a' + (value - 10)
    }
}

// Whether the text is the byte between single quotes.
fn is_literal(byte: u8, text: &[u8]) -> bool
    ensures { IsTrue result ↔ (words.literal byte ≡ text.now) }
{
    if is_plain_literal(byte) {
        return same_bytes(&[b'\'', byte, b'\''], text);
    }
    let high = hexadecimal_digit(byte / 16);
    let low = hexadecimal_digit(byte % 16);
    same_bytes(&[b'\'', b'\\', b'x', high, low, b'\''], text)
}

/// Whether the text is that of the name.
pub(crate) fn is_token_text(name: &TokenName, text: &[u8]) -> bool
    ensures { IsTrue result ↔ (token_text name.now ≡ text.now) }
{
    match name {
        TokenName::Word(word) => same_bytes(word.bytes(), text),
        TokenName::Byte(byte) => is_literal(*byte, text),
    }
}
