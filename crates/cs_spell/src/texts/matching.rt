// Whether a spelling is one of the matches of a scan.

ghost use Rattle.std.specs.Prelude.{◌↔◌, IsTrue, ◌≡◌, ◌≤◌, ◌+◌, length, take, drop};
ghost use Rattle.cs_spell.specs.Texts.Searching.{TellsMatch};

use cs_scanner::{Scanner, longest};

// Whether so many bytes of the text from the place on are the piece.
fn is_piece(text: &[u8], at: usize, size: usize, piece: &[u8]) -> bool
    requires { at + size ≤ length text.now }
    ensures { IsTrue result ↔ (take size (drop at text.now) ≡ piece.now) }
{
    let rest = &text[at..];
    &rest[..size] == piece
}

// Whether the match is by the rule, and the same.
fn is_by(found: u16, rule: u16, same: bool) -> bool
    ensures { IsTrue result ↔ ((found ≡ rule) × IsTrue same) }
{
    found == rule && same
}

/// Whether one of the matches of a text that scans to tokens is the piece, by the rule.
pub(crate) fn has_match(scanner: &Scanner<'_>, text: &[u8], rule: u16, piece: &[u8]) -> bool
    ensures { TellsMatch scanner.now rule piece.now text.now result }
{
    let mut at = 0;
    'matches: while at < text.len() {
        let Some((found, size)) = longest(scanner.automaton, text, at) else {
            return false;
        };
        let same = is_piece(text, at, size, piece);
        if is_by(found, rule, same) {
            return true;
        }
        at += size;
    }
    false
}
