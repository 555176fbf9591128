// Tokens whose lexemes scan back to them, whichever of them stand side by side.

ghost use Rattle.std.specs.Prelude.{◌<◌, ◌≤◌, ◌↔◌, IfOk, IsTrue, length};
ghost use Rattle.cs_scanner.specs.Scan.Compared.{scanning};
ghost use Rattle.cs_texts.specs.Splice.Apart.{HaveLexemes, IsApart, IsPassedBefore, IsTakenFirst, ScanBack, StandsApart};

use crate::rendering::RenderWork;
use crate::splice::step::{GivenToken, step_over};
use cs_scanner::Scanner;
use std::alloc::{AllocError, Global};
use std::marker::Model;

/// Tokens whose lexemes stand apart in texts: each list of such tokens has a text, without a scan of it.
#[derive(Drop)]
pub struct Apart {
    marks: Vec<bool>,
}

impl Model for Apart {
    ghost use Rattle.std.specs.Prelude.{Bool, List};

    ghost Value = { List Bool };

    ghost view = { λ a. a.marks.items };
}

// Whether the lexeme is the first match of each text that begins with it and the separator, and gives the token.
fn is_taken_first(scanner: &Scanner<'_>, lexeme: &[u8], separator: &[u8], token: u16) -> bool
    requires some { 0 < length lexeme.now }
    ensures { IsTrue result
        → IsTakenFirst (scanning scanner.now) lexeme.now separator.now token }
{
    let Some(step) = step_over(scanner, lexeme, separator) else {
        return false;
    };
    match (step.given, step.read) {
        (GivenToken::Token(given), Some(_)) => given == token && step.size == lexeme.len(),
        _ => false,
    }
}

// Whether the scan of each text that begins with the separator and the byte passes over the separator.
fn is_passed_before(scanner: &Scanner<'_>, separator: &[u8], first: u8) -> bool
    ensures { IsTrue result → IsPassedBefore (scanning scanner.now) separator.now first }
{
    let mut rest = separator;
    'matches: while !rest.is_empty() {
        let Some(step) = step_over(scanner, rest, &[first]) else {
            return false;
        };
        let (GivenToken::Nothing, Some(_)) = (step.given, step.read) else {
            return false;
        };
        if step.size > rest.len() {
            return false;
        }
        rest = &rest[step.size..];
    }
    true
}

// Whether the token's lexeme stands apart.
fn stands_apart(work: &RenderWork<'_>, token: u16) -> bool
    requires some { 0 < token }
    requires within { token ≤ length work.now.lexemes.now }
    ensures { IsTrue result → StandsApart work.now token }
{
    let Some(lexeme) = work.lexemes.get(token) else {
        return false;
    };
    if lexeme.is_empty() {
        return false;
    }
    is_taken_first(work.scanner, lexeme, work.separator, token)
        && is_passed_before(work.scanner, work.separator, lexeme[0])
}

impl Apart {
    /// Finds such tokens among those from 1 to so many. It is enough that the separator behind a token's lexeme settles the match
    /// of that, and that the first byte of the lexeme settles the matches of the separator, which give nothing. Others that
    /// stand apart may be missed.
    pub fn new(alloc: Global, work: &RenderWork<'_>, tokens: u16) -> Result<Apart, AllocError>
        requires tokens { tokens ≤ length work.now.lexemes.now }
        ensures lexemes { IfOk result (HaveLexemes work.now.lexemes.now) }
        ensures scan { IfOk result (ScanBack work.now) }
    {
        let mut marks = Vec::new(alloc);
        for place in 0..tokens {
            marks.push(stands_apart(work, place + 1))?;
        }
        Ok(Apart { marks })
    }

    /// Whether the token is one of them.
    pub fn has(&self, token: u16) -> bool
        ensures { IsTrue result ↔ IsApart self.now token }
    {
        let token = token as usize;
        0 < token && token <= self.marks.len() && self.marks[token - 1]
    }
}
