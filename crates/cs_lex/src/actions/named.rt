// What an action may name behind `return`.

ghost use Rattle.std.specs.Prelude.{ℕ, ◌≡◌, ◌≤◌, ◌<◌, length, take, IfSome, IfNone};
ghost use Rattle.std.specs.Str.{bytes_eq};
ghost use Rattle.cs_ctext.specs.Literals.{IsLiteral};
ghost use Rattle.cs_lex.specs.Actions.Views.{FindsNamed};

use cs_bytes::{ByteClass, begins, run_len, same_bytes, to_offset};
use cs_ctext::read_literal;

/// What an action names: a token by its word or its byte, or the byte that was read.
#[derive(Clone, Copy, Debug)]
pub(crate) enum Named<'a> {
    Word(&'a [u8]),
    Literal(u8),
    OwnByte,
}

/// A name, and its size.
#[derive(Clone, Copy, Debug)]
pub(crate) struct FoundName<'a> {
    pub(crate) named: Named<'a>,
    pub(crate) size: usize,
}

/// Whether the word begins the text.
pub(crate) fn begins_with(text: &[u8], word: &[u8]) -> bool
    ensures { result ≡ bytes_eq (take (length word.now) text.now) word.now }
{
    text.len() >= word.len() && same_bytes(to_offset(text, word.len()), word)
}

/// The literal in front.
pub(crate) fn literal_at(text: &[u8]) -> Option<(u8, usize)>
    ensures literal { IfSome result (λ f. IsLiteral text.now f.0 f.1 × (f.1 ≤ length text.now)) }
    ensures none { IfNone result ((byte size : ℕ) → ¬ IsLiteral text.now byte size) }
{
    read_literal(text, 0)
}

/// The name in front of the text.
pub(crate) fn named_at(text: &[u8]) -> Option<FoundName<'_>>
    ensures { FindsNamed text.now result }
{
    if begins_with(text, b"yytext[0]") {
        return Some(FoundName {
            named: Named::OwnByte,
            size: 9,
        });
    }
    if begins_with(text, b"*yytext") {
        return Some(FoundName {
            named: Named::OwnByte,
            size: 7,
        });
    }
    if begins(text, ByteClass::WordStart) {
        let size = run_len(text, ByteClass::Word);
        return Some(FoundName {
            named: Named::Word(to_offset(text, size)),
            size,
        });
    }
    let (byte, size) = literal_at(text)?;
    Some(FoundName {
        named: Named::Literal(byte),
        size,
    })
}
