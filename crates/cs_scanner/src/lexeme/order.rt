// The order of lexemes.

ghost use Rattle.std.specs.Prelude.{◌↔◌, IsTrue};
ghost use Rattle.cs_scanner.specs.Lexeme.Order.{IsBefore};

use crate::lexeme::rank::rank;

/// Whether the one text comes before the other.
pub(crate) fn is_before(text: &[u8], other: &[u8]) -> bool
    ensures { IsTrue result ↔ IsBefore text.now other.now }
{
    if text.len() != other.len() {
        return text.len() < other.len();
    }
    for i in 0..text.len() {
        if text[i] != other[i] {
            return rank(text[i]) < rank(other[i]);
        }
    }
    false
}
