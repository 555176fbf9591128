// The text of a list of tokens.

ghost use Rattle.std.specs.Prelude.{◌≡◌, ◌<◌, ◌≤◌, ◌++◌, All, IfErr, IfOk, length};
ghost use Rattle.cs_texts.specs.Rendering.Rendering.{AreTokens, HasLexeme, IsFirstWithout, IsRuleText, Renders};
ghost use Rattle.cs_texts.specs.Rendering.Parts.{PutsLexeme};

use crate::rendering::rendered::Rendered;
use cs_scanner::{Agreement, Lexemes, Scanner, agrees};
use std::alloc::{AllocError, Global};

// The room that the tokens' text needs; or the first token that has no lexeme.
fn room_for(lexemes: &Lexemes, separator: &[u8], tokens: &[u16]) -> Result<usize, u16>
    requires { AreTokens lexemes.now tokens.now }
    ensures without { IfErr result (λ token. IsFirstWithout lexemes.now tokens.now token) }
    ensures have { IfOk result (λ _. All (HasLexeme lexemes.now) tokens.now) }
{
    let mut room = 0usize;
    for i in 0..tokens.len() {
        let token = tokens[i];
        let Some(lexeme) = lexemes.get(token) else {
            return Err(token);
        };
        room = room.saturating_add(lexeme.len() + separator.len());
    }
    Ok(room)
}

// Puts the lexeme of the token.
fn put_lexeme(text: &mut Vec<u8>, lexemes: &Lexemes, token: u16) -> Result<(), AllocError>
    requires some { 0 < token }
    requires within { token ≤ length lexemes.now }
    requires has { HasLexeme lexemes.now token }
    ensures { IfOk result (λ _. PutsLexeme lexemes.now token text.old.items text.new.items) }
{
    if let Some(lexeme) = lexemes.get(token) {
        text.extend_from_slice(lexeme)?;
    }
    Ok(())
}

// Puts the separator, which mostly is one byte.
fn put_separator(text: &mut Vec<u8>, separator: &[u8]) -> Result<(), AllocError>
    ensures { IfOk result (λ _. text.new.items ≡ text.old.items ++ separator.now) }
{
    if separator.len() == 1 {
        text.push(separator[0])?;
    } else {
        text.extend_from_slice(separator)?;
    }
    Ok(())
}

// The lexemes of the tokens, with the separator between them, put into as much room.
fn join(
    alloc: Global,
    lexemes: &Lexemes,
    separator: &[u8],
    tokens: &[u16],
    room: usize,
) -> Result<Vec<u8>, AllocError>
    requires tokens { AreTokens lexemes.now tokens.now }
    requires have { All (HasLexeme lexemes.now) tokens.now }
    ensures { IfOk result (λ text. IsRuleText lexemes.now separator.now tokens.now text.items) }
{
    let mut text = Vec::with_capacity(alloc, room)?;
    for i in 0..tokens.len() {
        if i > 0 {
            put_separator(&mut text, separator)?;
        }
        put_lexeme(&mut text, lexemes, tokens[i])?;
    }
    Ok(text)
}

/// What comes of the tokens: the text that the rule makes of them where it scans back to them, else why there is none.
///
/// It takes memory for the text alone.
pub fn render(
    alloc: Global,
    scanner: &Scanner<'_>,
    lexemes: &Lexemes,
    separator: &[u8],
    tokens: &[u16],
) -> Result<Rendered, AllocError>
    requires tokens { AreTokens lexemes.now tokens.now }
    requires few { length tokens.now ≤ 1000001 }
    ensures { IfOk result (Renders scanner.now lexemes.now separator.now tokens.now) }
{
    let room = match room_for(lexemes, separator, tokens) {
        Ok(room) => room,
        Err(token) => return Ok(Rendered::NoLexeme(token)),
    };
    let text = join(alloc, lexemes, separator, tokens, room)?;
    match agrees(scanner, &text, tokens) {
        Agreement::Whole => Ok(Rendered::Text(text)),
        Agreement::Differs { after } => Ok(Rendered::Differs { after }),
    }
}
