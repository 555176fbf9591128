// The extent of a pattern.

ghost use Rattle.std.specs.Prelude.{◌≡◌, ◌≤◌, ◌<◌, length, false};
ghost use Rattle.cs_bytes.specs.Classes.{is_space};
ghost use Rattle.cs_bytes.specs.Places.{front_or_end};
ghost use Rattle.cs_lex.specs.Layout.Found as found;
ghost use Rattle.cs_lex.specs.Layout.Patterns as spec;

use crate::layout::bracket::bracket_size;
use crate::layout::quoted::quoted_size;
use crate::layout::unit::{UnitKind, ends_pattern, unit_kind};
use cs_bytes::{from_offset, line_len};

/// The size of the closed text or bracket, or up to the line's end.
fn closed_or_line(text: &[u8], closed: Option<usize>) -> usize
    ensures { result ≡ found.closed_or_line closed text.now }
{
    match closed {
        Some(size) => size,
        None => line_len(text),
    }
}

/// The size of the escape, quoted text, bracket or byte in front.
fn unit_size(text: &[u8]) -> usize
    requires { front_or_end is_space text.now ≡ false }
    ensures unit { spec.IsUnit text.now result }
    ensures within { (0 < result) × (result ≤ length text.now) }
{
    match unit_kind(text) {
        UnitKind::Escape => 2,
        UnitKind::Quoted => closed_or_line(text, quoted_size(text)),
        UnitKind::Bracket => closed_or_line(text, bracket_size(text)),
        UnitKind::Plain | UnitKind::Nothing => 1,
    }
}

/// The size of the pattern in front: it goes to the first blank or newline outside escapes, quoted texts and brackets.
///
/// A quoted text or bracket that isn't closed on its line makes it go to the line's end.
pub(crate) fn pattern_size(text: &[u8]) -> usize
    ensures extent { spec.IsPattern text.now result }
    ensures within { result ≤ length text.now }
{
    let mut at = 0;
    while !ends_pattern(from_offset(text, at)) {
        at += unit_size(from_offset(text, at));
    }
    at
}
