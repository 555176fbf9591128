//! Classes of bytes.

ghost use Rattle.std.specs.Prelude.{◌≡◌};
ghost use Rattle.cs_bytes.specs.Classes.{is_in, is_blank, begins_word};

/// A class of bytes, to test one or to find a run of them.
#[derive(Clone, Copy, Debug)]
pub enum ByteClass {
    Digit,
    OctalDigit,
    HexadecimalDigit,
    /// Space, tab and carriage return.
    Blank,
    /// Blanks and newline.
    Space,
    /// Letters and `_`.
    WordStart,
    /// Letters, `_` and digits.
    Word,
    /// Letters, `_`, digits and this byte.
    WordOr(u8),
    /// Every byte but this one.
    Not(u8),
    /// Every byte but these two.
    Neither(u8, u8),
}

impl ByteClass {
    /// Whether the byte is of the class.
    pub fn has(self, byte: u8) -> bool
        ensures { result ≡ is_in self byte }
    {
        match self {
            ByteClass::Digit => byte.is_ascii_digit(),
            ByteClass::OctalDigit => matches!(byte, b'0'..=b'7'),
            ByteClass::HexadecimalDigit => byte.is_ascii_hexdigit(),
            ByteClass::Blank => is_blank(byte),
            ByteClass::Space => is_blank(byte) || byte == b'\n',
            ByteClass::WordStart => begins_word(byte),
            ByteClass::Word => begins_word(byte) || byte.is_ascii_digit(),
            ByteClass::WordOr(other) => {
                begins_word(byte) || byte.is_ascii_digit() || byte == other
            }
            ByteClass::Not(other) => byte != other,
            ByteClass::Neither(one, other) => byte != one && byte != other,
        }
    }
}

fn is_blank(byte: u8) -> bool
    ensures { result ≡ is_blank byte }
{
    matches!(byte, b' ' | b'\t' | b'\r')
}

fn begins_word(byte: u8) -> bool
    ensures { result ≡ begins_word byte }
{
    byte.is_ascii_alphabetic() || byte == b'_'
}
