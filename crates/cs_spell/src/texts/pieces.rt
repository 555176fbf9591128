// Texts from the lexemes of tokens and a spelling.

ghost use Rattle.std.specs.Prelude.{◌≡◌, IfOk, slice_set};
ghost use Rattle.cs_spell.specs.Texts.Pieces.{IsSpelledBy, surrounded, values};
ghost use Rattle.cs_spell.specs.Texts.Gathered.{IsGathered};
ghost use Rattle.cs_texts.specs.Rendering.Joined.{joined};
ghost use Rattle.cs_texts.specs.Rendering.Rendering.{AreTokens};

use crate::texts::way::Way;
use cs_scanner::Lexemes;
use std::alloc::{AllocError, Global};

/// The lexemes of tokens, or the first token that has none.
#[derive(Debug, Drop)]
pub(crate) enum Gathered<'l> {
    All(Vec<&'l [u8]>),
    Without(u16),
}

/// The lexemes of the tokens.
pub(crate) fn gather<'l>(
    alloc: Global,
    lexemes: &'l Lexemes,
    tokens: &[u16],
) -> Result<Gathered<'l>, AllocError>
    requires { AreTokens lexemes.now tokens.now }
    ensures { IfOk result (IsGathered lexemes.now tokens.now) }
{
    let mut pieces = Vec::new(alloc);
    for i in 0..tokens.len() {
        let Some(lexeme) = lexemes.get(tokens[i]) else {
            return Ok(Gathered::Without(tokens[i]));
        };
        pieces.push(lexeme)?;
    }
    Ok(Gathered::All(pieces))
}

// The pieces with the separator between them.
fn join(alloc: Global, separator: &[u8], pieces: &[&[u8]]) -> Result<Vec<u8>, AllocError>
    ensures { IfOk result (λ text. text.items ≡ joined separator.now (values pieces.now)) }
{
    let mut text = Vec::new(alloc);
    for i in 0..pieces.len() {
        if i > 0 {
            text.extend_from_slice(separator)?;
        }
        text.extend_from_slice(pieces[i])?;
    }
    Ok(text)
}

// The spelling, and each piece with the spelling behind it.
fn surround(alloc: Global, spelling: &[u8], pieces: &[&[u8]]) -> Result<Vec<u8>, AllocError>
    ensures { IfOk result (λ text.
        text.items ≡ surrounded spelling.now (values pieces.now)) }
{
    let mut text = Vec::new(alloc);
    text.extend_from_slice(spelling)?;
    for i in 0..pieces.len() {
        text.extend_from_slice(pieces[i])?;
        text.extend_from_slice(spelling)?;
    }
    Ok(text)
}

// Puts the spelling in place of the piece, if there is one.
fn exchange<'s>(pieces: &mut Vec<&'s [u8]>, place: usize, spelling: &'s [u8])
    ensures { values pieces.new.items ≡ slice_set (values pieces.old.items) place spelling.now }
{
    if place >= pieces.len() {
        return;
    }
    pieces[place] = spelling;
}

/// The text of the pieces with the spelling.
pub(crate) fn spell<'s>(
    alloc: Global,
    way: Way,
    separator: &[u8],
    spelling: &'s [u8],
    mut pieces: Vec<&'s [u8]>,
) -> Result<Vec<u8>, AllocError>
    ensures { IfOk result
        (IsSpelledBy way separator.now spelling.now pieces.entry.items) }
{
    match way {
        Way::Gives { place, .. } => {
            exchange(&mut pieces, place, spelling);
            join(alloc, separator, &pieces)
        }
        Way::Skips => surround(alloc, spelling, &pieces),
    }
}
