// The lexemes of tokens beside another text.

ghost use Rattle.std.specs.Prelude.{◌≡◌, ◌++◌, [], IfOk, IsTrue};
ghost use Rattle.cs_texts.specs.Rendering.Rendering.{AreTokens};
ghost use Rattle.cs_writing.specs.Mutants.Rows.{HaveAllLexemes, PutsText, with_separator};

use cs_texts::RenderWork;
use std::alloc::{AllocError, Global};

/// On which side of each lexeme its separator stands: behind those in front of another text, and before those behind one.
#[derive(Clone, Copy)]
pub(crate) enum Side {
    Before,
    Behind,
}

/// Puts the lexemes of the tokens, each with a separator on this side of it. False where a token has none.
pub(crate) fn put_text(
    out: &mut Vec<u8>,
    work: &RenderWork<'_>,
    side: Side,
    tokens: &[u16],
) -> Result<bool, AllocError>
    requires empty { out.old.items ≡ [] }
    requires tokens { AreTokens work.now.lexemes.now tokens.now }
    ensures text { IfOk result (PutsText work.now side tokens.now out.new.items) }
    ensures there { IfOk result (λ has. HaveAllLexemes work.now tokens.now → IsTrue has) }
{
    for token in tokens {
        let Some(lexeme) = work.lexemes.get(*token) else {
            return Ok(false);
        };
        let (first, second) = in_order(work.separator, side, lexeme);
        put_piece(out, first)?;
        put_piece(out, second)?;
    }
    Ok(true)
}

// Puts a piece, which often is one byte.
fn put_piece(out: &mut Vec<u8>, piece: &[u8]) -> Result<(), AllocError>
    ensures { IfOk result (λ _. out.new.items ≡ out.old.items ++ piece.now) }
{
    if piece.len() == 1 {
        out.push(piece[0])?;
    } else {
        out.extend_from_slice(piece)?;
    }
    Ok(())
}

// A lexeme and the separator on this side of it, in the order of the text.
fn in_order<'t>(separator: &'t [u8], side: Side, lexeme: &'t [u8]) -> (&'t [u8], &'t [u8])
    ensures { result.0.now ++ result.1.now ≡ with_separator separator.now side lexeme.now }
{
    match side {
        Side::Before => (separator, lexeme),
        Side::Behind => (lexeme, separator),
    }
}
