// Units of a pattern's text.

ghost use Rattle.std.specs.Prelude.{◌≡◌};
ghost use Rattle.cs_bytes.specs.Classes.{is_space};
ghost use Rattle.cs_bytes.specs.Places as places;
ghost use Rattle.cs_lex.specs.Layout.Patterns as spec;

use cs_bytes::{ByteClass, has_at};

/// What begins with the front of a pattern's rest.
#[derive(Clone, Copy, Debug, PartialEq, Eq)]
pub enum UnitKind {
    Escape,
    Quoted,
    Bracket,
    Plain,
    Nothing,
}

/// Whether a backslash stands in front, with a byte that it takes along.
pub(crate) fn is_escape(text: &[u8]) -> bool
    ensures { result ≡ spec.is_escape text.now }
{
    match text {
        [b'\\', byte, ..] => *byte != b'\n',
        _ => false,
    }
}

/// Whether the text is empty or begins with a blank or newline.
pub(crate) fn ends_pattern(text: &[u8]) -> bool
    ensures { result ≡ places.front_or_end is_space text.now }
{
    match text {
        [byte, ..] => ByteClass::Space.has(*byte),
        [] => true,
    }
}

pub(crate) fn unit_kind(text: &[u8]) -> UnitKind
    ensures { result ≡ spec.unit_kind text.now }
{
    if is_escape(text) {
        UnitKind::Escape
    } else if has_at(text, 0, b'"') {
        UnitKind::Quoted
    } else if has_at(text, 0, b'[') {
        UnitKind::Bracket
    } else if ends_pattern(text) {
        UnitKind::Nothing
    } else {
        UnitKind::Plain
    }
}
