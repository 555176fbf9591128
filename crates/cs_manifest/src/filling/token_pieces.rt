// Tokens as the lines of negatives have them.

ghost use Rattle.std.specs.Prelude.{◌≡◌, ◌<◌, ◌∷◌, IfNone, IfOk, IfSome, None, length, map, option_map};
ghost use Rattle.cs_bytes.specs.Names.{space};
ghost use Rattle.cs_scanner.specs.Lexeme.Lexeme.{lexeme_in};
ghost use Rattle.cs_manifest.specs.Output.Names.{IsNamedToken, token_of};
ghost use Rattle.cs_manifest.specs.Filling.Open.{IsQuotedLexeme, between_quotes};
ghost use Rattle.cs_manifest.specs.Filling.ByToken.{spaced_name};

use crate::output::{Piece, Speller, put_spaced_name, put_text_bytes, spelled_piece};
use cs_grammar::{number_of, place_of};
use cs_scanner::Lexemes;
use cs_yacc::{TokenName, YaccFile};
use std::alloc::{AllocError, Global};
use std::marker::Model;

/// The tokens of a file as the lines of negatives have them: the name of each behind a space, and its lexeme, if it has one, as
/// it stands between quotes.
#[derive(Drop)]
pub struct TokenPieces<'a> {
    yacc: &'a YaccFile,
    lexemes: &'a Lexemes,
    names: Vec<Piece>,
    texts: Vec<Option<Piece>>,
}

impl<'a> Model for TokenPieces<'a> {
    ghost use Rattle.cs_manifest.specs.Filling.Open.{TokenTable};

    ghost Value = { TokenTable };

    ghost use Rattle.std.specs.Prelude.{◌≡◌, length};
    ghost use Rattle.cs_manifest.specs.Filling.ByToken.{AreNames, AreQuoted};

    ghost view = { λ p. record { file = p.yacc.now; lexemes = p.lexemes.now } };

    ghost invariant = { λ p.
        AreNames p.yacc.now p.names.items
        × AreQuoted p.lexemes.now p.texts.items
        × (length p.lexemes.now ≡ length p.yacc.now.token_names) };
}

impl<'a> TokenPieces<'a> {
    /// Those of this file's tokens.
    pub fn new(
        alloc: Global,
        yacc: &'a YaccFile,
        lexemes: &'a Lexemes,
    ) -> Result<TokenPieces<'a>, AllocError>
        requires { length lexemes.now ≡ length yacc.now.token_names }
        ensures { IfOk result
            (λ pieces. pieces ≡ record { file = yacc.now; lexemes = lexemes.now }) }
    {
        let mut speller = Speller::new(alloc);
        let names = name_pieces(alloc, &mut speller, yacc.token_names())?;
        let texts = text_pieces(alloc, &mut speller, lexemes, yacc.token_names().len())?;
        Ok(TokenPieces {
            yacc,
            lexemes,
            names,
            texts,
        })
    }

    /// A token's name behind a space.
    pub fn name(&self, token: u16) -> &Piece
        requires { IsNamedToken self.now.file token }
        ensures { result.now ≡ space ∷ token_of self.now.file token }
    {
        &self.names[place_of(token)]
    }

    /// A token's lexeme as it stands between quotes. None where it has none.
    pub fn lexeme(&self, token: u16) -> Option<&Piece>
        requires { IsNamedToken self.now.file token }
        ensures some { IfSome result (IsQuotedLexeme self.now.lexemes token) }
        ensures none { IfNone result (lexeme_in self.now.lexemes token ≡ None) }
    {
        self.texts[place_of(token)].as_ref()
    }
}

fn name_pieces(
    alloc: Global,
    speller: &mut Speller,
    names: &[TokenName],
) -> Result<Vec<Piece>, AllocError>
    ensures { IfOk result (λ pieces. pieces.items ≡ map spaced_name names.now) }
{
    let mut pieces = Vec::with_capacity(alloc, names.len())?;
    for name in names {
        pieces.push(name_piece(alloc, speller, name)?)?;
    }
    Ok(pieces)
}

fn name_piece(alloc: Global, speller: &mut Speller, name: &TokenName) -> Result<Piece, AllocError>
    ensures { IfOk result (λ piece. piece ≡ spaced_name name.now) }
{
    let mut output = speller.output();
    put_spaced_name(&mut output, name);
    spelled_piece(alloc, &mut output)
}

// Those of the tokens from 1 to so many.
fn text_pieces(
    alloc: Global,
    speller: &mut Speller,
    lexemes: &Lexemes,
    tokens: usize,
) -> Result<Vec<Option<Piece>>, AllocError>
    requires all { length lexemes.now ≡ tokens }
    requires few { tokens < 65536 }
    ensures { IfOk result (λ pieces. pieces.items ≡ map (option_map between_quotes) lexemes.now) }
{
    let mut pieces = Vec::with_capacity(alloc, tokens)?;
    for place in 0..tokens {
        pieces.push(text_piece(alloc, speller, lexemes.get(number_of(place)))?)?;
    }
    Ok(pieces)
}

fn text_piece(
    alloc: Global,
    speller: &mut Speller,
    lexeme: Option<&[u8]>,
) -> Result<Option<Piece>, AllocError>
    ensures { IfOk result (λ piece.
        piece ≡ option_map (λ text. between_quotes text.now) lexeme.entry) }
{
    let Some(text) = lexeme else {
        return Ok(None);
    };
    let mut output = speller.output();
    put_text_bytes(&mut output, text);
    Ok(Some(spelled_piece(alloc, &mut output)?))
}
