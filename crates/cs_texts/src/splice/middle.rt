// The text of the tokens in the midst of a list.

ghost use Rattle.std.specs.Prelude.{◌≤◌, IfOk, length};
ghost use Rattle.cs_texts.specs.Rendering.Rendering.{AreTokens};
ghost use Rattle.cs_texts.specs.Splice.Middle.{IfMiddle};

use cs_scanner::Lexemes;
use std::alloc::{AllocError, Global};

/// Puts what is to stand between the texts of the tokens in front of a range and of those behind it: the lexemes of the range, each
/// but the list's first behind a separator. False where a token of the range has no lexeme.
pub(crate) fn put_middle(
    out: &mut Vec<u8>,
    lexemes: &Lexemes,
    separator: &[u8],
    tokens: &[u16],
    from: usize,
    to: usize,
) -> Result<bool, AllocError>
    requires tokens { AreTokens lexemes.now tokens.now }
    requires order { from ≤ to }
    requires within { to ≤ length tokens.now }
    ensures { IfOk result (IfMiddle lexemes.now separator.now tokens.now from to out.new.items) }
{
    out.clear();
    for i in from..to {
        if i > 0 {
            out.extend_from_slice(separator)?;
        }
        let Some(lexeme) = lexemes.get(tokens[i]) else {
            return Ok(false);
        };
        out.extend_from_slice(lexeme)?;
    }
    if 0 < to && to < tokens.len() {
        out.extend_from_slice(separator)?;
    }
    Ok(true)
}
