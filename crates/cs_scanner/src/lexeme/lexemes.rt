// The lexemes of tokens.

ghost use Rattle.std.specs.Prelude.{◌≡◌, ◌+◌, ◌<◌, ◌≤◌, ◌↔◌, IfNone, IfOk, IfSome, IsTrue, Some, length, option_map};
ghost use Rattle.cs_scanner.specs.Scan.Compared.{scanning};
ghost use Rattle.cs_scanner.specs.Lexeme.Kinds.{AreEmpty, AreLeastTexts, AreNamedTexts, IsFirstOwn, IsFirstOwnText, IsKindAt, IsLeastOwn, IsReached, KeepsCount, KeepsLeast, KeepsText, NamesNoOpen, NamesOpen, PutsNamed, PutsText, own_byte};
ghost use Rattle.cs_scanner.specs.Lexeme.Lexeme.{AreLexemes, lexeme_in};
ghost use Rattle.cs_scanner.specs.Lexeme.Table.{IsTable};
ghost use Rattle.cs_scanner.specs.Lexeme.Texts.{text_of, texts_of};
ghost use Rattle.cs_scanner.specs.Lexeme.Visits.{AreVisits};

use crate::automaton::State;
use crate::lexeme::order::is_before;
use crate::lexeme::search::{Origin, Visit, meet_all, start_visit, text_at};
use crate::lexeme::steps::{StepTable, Steps, with_steps};
use crate::scanning::Scanner;
use cs_grammar::place_of;
use cs_pattern_parts::Kind;
use std::alloc::{AllocError, Global};
use std::marker::Model;

/// The lexeme of each token, if it has one.
#[derive(Debug, Drop)]
pub struct Lexemes {
    texts: Vec<Option<Vec<u8>>>,
}

impl Model for Lexemes {
    ghost use Rattle.std.specs.Prelude.{List, ℕ, Option};
    ghost use Rattle.cs_scanner.specs.Lexeme.Texts.{texts_of};

    ghost Value = { List (Option (List ℕ)) };

    ghost view = { λ l. texts_of l.texts.items };
}

/// The kind of the first rule that matches the texts of the state.
fn kind_at(scanner: &Scanner<'_>, state: State) -> Option<Kind>
    requires state { state < length scanner.now.automaton.now.sets }
    requires reached { IsReached scanner.now.automaton.now state }
    ensures { IsKindAt scanner.now state result }
{
    let rule = scanner.automaton.first_rule(state)?;
    Some(scanner.kinds[place_of(rule)])
}

/// The token that the kind names, if it is one of those asked for and has no text yet.
fn open_token(texts: &[Option<Vec<u8>>], kind: Option<Kind>) -> Option<u16>
    ensures some { IfSome result (NamesOpen (texts_of texts.now) kind) }
    ensures none { IfNone result (NamesNoOpen (texts_of texts.now) kind) }
{
    let Some(Kind::Token(token)) = kind else {
        return None;
    };
    if token > 0 && token as usize <= texts.len() && texts[place_of(token)].is_none() {
        return Some(token);
    }
    None
}

/// Whether the kind gives its own byte.
fn is_own(kind: Option<Kind>) -> bool
    ensures { IsTrue result ↔ (kind ≡ Some own_byte) }
{
    match kind {
        Some(Kind::OwnByte) => true,
        _ => false,
    }
}

/// No text for each of the tokens.
fn no_texts(alloc: Global, tokens: u16) -> Result<Vec<Option<Vec<u8>>>, AllocError>
    ensures { IfOk result (λ texts. AreEmpty tokens (texts_of texts.items)) }
{
    let mut texts = Vec::new(alloc);
    for _ in 0..tokens {
        texts.push(None)?;
    }
    Ok(texts)
}

/// Puts the text of a token.
fn put_text(texts: &mut Vec<Option<Vec<u8>>>, token: u16, text: Vec<u8>)
    requires some { 0 < token }
    requires within { token ≤ length (texts_of texts.old.items) }
    ensures { PutsText (texts_of texts.old.items) token text.items (texts_of texts.new.items) }
{
    texts[place_of(token)] = Some(text);
}

/// Puts the text of each open token that the kind of a place names.
fn put_named(
    alloc: Global,
    table: &StepTable<'_>,
    visits: &[Visit],
    texts: &mut Vec<Option<Vec<u8>>>,
) -> Result<(), AllocError>
    requires visits { AreVisits table.now.scanner.automaton.now visits.now }
    requires some { 0 < length visits.now }
    requires texts { AreEmpty (length (texts_of texts.old.items)) (texts_of texts.old.items) }
    ensures { IfOk result (λ _. PutsNamed table.now visits.now texts.old.items texts.new.items) }
{
    for place in 1..visits.len() {
        let kind = kind_at(&table.scanner, visits[place].state);
        if let Some(token) = open_token(texts, kind) {
            let text = text_at(alloc, visits, place)?;
            put_text(texts, token, text);
        }
    }
    Ok(())
}

/// The least text of each token that a rule names as its kind.
fn find_named(
    alloc: Global,
    table: &StepTable<'_>,
    tokens: u16,
) -> Result<Vec<Option<Vec<u8>>>, AllocError>
    requires table { IsTable table.now }
    ensures named { IfOk result (λ list. AreNamedTexts table.now.scanner list.items) }
    ensures all { IfOk result (λ texts. length (texts_of texts.items) ≡ tokens) }
{
    let mut visits = start_visit(alloc, table.scanner.automaton.start())?;
    let steps = Steps {
        automaton: table.scanner.automaton,
        rows: &table.rows,
    };
    meet_all(alloc, &steps, &mut visits, 0)?;
    let mut texts = no_texts(alloc, tokens)?;
    put_named(alloc, table, &visits, &mut texts)?;
    Ok(texts)
}

/// The first place behind the start whose texts give their own byte.
fn first_own(table: &StepTable<'_>, visits: &[Visit]) -> Option<usize>
    requires visits { AreVisits table.now.scanner.automaton.now visits.now }
    ensures { IsFirstOwn table.now.scanner visits.now result }
{
    for place in 1..visits.len() {
        if is_own(kind_at(&table.scanner, visits[place].state)) {
            return Some(place);
        }
    }
    None
}

/// The text of the first place behind the start whose texts give their own byte.
fn first_text(
    alloc: Global,
    table: &StepTable<'_>,
    visits: &[Visit],
) -> Result<Option<Vec<u8>>, AllocError>
    requires visits { AreVisits table.now.scanner.automaton.now visits.now }
    ensures { IfOk result (λ text. IsFirstOwnText table.now.scanner visits.now (text_of text)) }
{
    match first_own(table, visits) {
        Some(place) => Ok(Some(text_at(alloc, visits, place)?)),
        None => Ok(None),
    }
}

/// The least text that begins with the byte and gives its own byte's token.
fn find_own(alloc: Global, table: &StepTable<'_>, byte: u8) -> Result<Option<Vec<u8>>, AllocError>
    requires table { IsTable table.now }
    ensures { IfOk result (λ text. IsLeastOwn table.now.scanner byte (text_of text)) }
{
    let start = table.scanner.automaton.start();
    let Some(to) = table.scanner.automaton.step(start, byte) else {
        return Ok(None);
    };
    let mut visits = start_visit(alloc, start)?;
    let origin = Some(Origin { place: 0, byte });
    visits.push(Visit { state: to, origin })?;
    let steps = Steps {
        automaton: table.scanner.automaton,
        rows: &table.rows,
    };
    meet_all(alloc, &steps, &mut visits, 1)?;
    first_text(alloc, table, &visits)
}

/// Keeps the lesser text.
fn keep_least(kept: &mut Option<Vec<u8>>, text: Vec<u8>)
    ensures { KeepsLeast (text_of kept.old) text.items (text_of kept.new) }
{
    let lesser = match kept {
        Some(known) => is_before(&text, known),
        None => true,
    };
    if lesser {
        *kept = Some(text);
    }
}

/// Keeps the lesser text of a token.
fn keep_text(texts: &mut Vec<Option<Vec<u8>>>, token: u16, text: Vec<u8>)
    requires some { 0 < token }
    requires within { token ≤ length (texts_of texts.old.items) }
    ensures { KeepsText (texts_of texts.old.items) token text.items (texts_of texts.new.items) }
{
    keep_least(&mut texts[place_of(token)], text);
}

/// Puts the least text that gives the byte's token as its own byte, where it is the lesser one.
fn put_own(
    alloc: Global,
    table: &StepTable<'_>,
    byte: u8,
    texts: &mut Vec<Option<Vec<u8>>>,
) -> Result<(), AllocError>
    requires table { IsTable table.now }
    requires least { AreLeastTexts table.now.scanner byte texts.old.items }
    ensures least { IfOk result (λ _. AreLeastTexts table.now.scanner (byte + 1) texts.new.items) }
    ensures all { IfOk result (λ _. KeepsCount texts.old.items texts.new.items) }
{
    let token = table.scanner.literals[byte as usize];
    if token == 0 || token as usize > texts.len() {
        return Ok(());
    }
    if let Some(text) = find_own(alloc, table, byte)? {
        keep_text(texts, token, text);
    }
    Ok(())
}

impl Lexemes {
    /// The lexemes of the tokens from 1 to so many.
    pub fn new(alloc: Global, scanner: &Scanner<'_>, tokens: u16) -> Result<Lexemes, AllocError>
        ensures { IfOk result (λ lexemes. AreLexemes (scanning scanner.now) tokens lexemes) }
    {
        let table = with_steps(alloc, scanner)?;
        let mut texts = find_named(alloc, &table, tokens)?;
        for byte in 0..256u16 {
            put_own(alloc, &table, byte as u8, &mut texts)?;
        }
        Ok(Lexemes { texts })
    }

    /// The lexeme of the token, which counts from 1. None where it has none. It takes no memory.
    pub fn get(&self, token: u16) -> Option<&[u8]>
        requires from_1 { 0 < token }
        requires within { token ≤ length self.now }
        ensures { option_map (λ text. text.now) result ≡ lexeme_in self.now token }
    {
        match &self.texts[place_of(token)] {
            Some(text) => Some(text.as_slice()),
            None => None,
        }
    }
}
