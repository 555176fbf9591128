// Marks of framed tokens.

ghost use Rattle.std.specs.Prelude.{◌≡◌, ◌↔◌, ◌<◌, ◌^◌, ℕ, IsTrue, Some, slice_get};
ghost use Rattle.cs_grammar.specs.Sentence.{framed, IsFollowed};
ghost use Rattle.cs_lines.specs.Lines.Numbers.{IsRead};

use crate::checking::cases::place_in;
use cs_grammar::Mark;

/// The mark at a place of the framed tokens.
pub(crate) fn framed_at(tokens: &[u16], place: u64) -> Option<Mark>
    ensures { (n : ℕ) → IsRead n place → result ≡ slice_get (framed tokens.now) n }
{
    if place == 0 {
        return Some(Mark::Begin);
    }
    match place_in(place, tokens.len()) {
        Some(at) => Some(Mark::Token(tokens[at])),
        None if place == tokens.len() as u64 + 1 => Some(Mark::End),
        None => None,
    }
}

// Whether the mark stands at the place of the framed tokens.
fn is_at(tokens: &[u16], place: usize, mark: Mark) -> bool
    requires { place < 2 ^ 63 }
    ensures { IsTrue result ↔ (slice_get (framed tokens.now) place ≡ Some mark) }
{
    match framed_at(tokens, place as u64) {
        Some(other) => other == mark,
        None => false,
    }
}

/// Whether the one mark is directly followed by the other in the framed tokens.
pub(crate) fn has_pair(tokens: &[u16], left: Mark, right: Mark) -> bool
    ensures { IsTrue result ↔ IsFollowed left right (framed tokens.now) }
{
    for at in 0..tokens.len() + 1 {
        if is_at(tokens, at, left) && is_at(tokens, at + 1, right) {
            return true;
        }
    }
    false
}
