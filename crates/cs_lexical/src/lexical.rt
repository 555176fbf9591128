// The least texts of rules.

ghost use Rattle.std.specs.Prelude.{◌≡◌, ◌+◌, ◌-◌, ◌<◌, ◌≤◌, [], ◌∷◌, IfOk, IsTrue, None, Some, count_by, is_none, is_some, length, map, sum_by, option_map, slice_index_or};
ghost use Rattle.cs_scanner.specs.Lexeme.Texts.{texts_of};
ghost use Rattle.cs_scanner.specs.Lexeme.StateTexts.{AreStateTexts};
ghost use Rattle.cs_scanner.specs.Automaton.Machine.{patterns_of};
ghost use Rattle.cs_lexical.specs.Least.{AreLeastTexts, all_none, all_some, both_in, lists, named, row_in, rules_of, seen, win_in};
ghost use Rattle.cs_lexical.specs.Lines.{disjoint, overlaps, shadowed};
ghost use Rattle.cs_lexical.specs.Noting.{AreNoted, AreRows, IsTextAt, NotesAll};

use crate::noting::{no_rows, note_rows, note_win};
use cs_grammar::place_of;
use cs_scanner::{Automaton, StateTexts};
use std::alloc::{AllocError, Global};
use std::marker::Model;

/// For each rule of a scanner the least text that it wins, and for each two the least text in which they overlap.
///
/// It is seen as these texts. Texts are kept once, by the number of the state that they lead to; the tables have numbers.
#[derive(Debug, Drop)]
pub struct Lexical {
    wins: Vec<u16>,
    rows: Vec<Vec<u16>>,
    texts: Vec<Option<Vec<u8>>>,
}

impl Model for Lexical {
    ghost use Rattle.std.specs.Prelude.{length};
    ghost use Rattle.cs_lexical.specs.Least.{LeastTexts, least_of, lists};
    ghost use Rattle.cs_lexical.specs.Noting.{AreRows};
    ghost use Rattle.cs_scanner.specs.Lexeme.Texts.{texts_of};

    ghost Value = { LeastTexts };

    ghost view = { λ l. least_of l.wins.items (lists l.rows.items) (texts_of l.texts.items) };

    ghost invariant = { λ l. AreRows (length l.wins.items) (lists l.rows.items) };
}

// The text of the place, where it is new to some rule or pair.
fn text_if(
    alloc: Global,
    won: bool,
    overlap: bool,
    met: &StateTexts,
    place: usize,
) -> Result<Option<Vec<u8>>, AllocError>
    requires { place < length met.now }
    ensures won { IsTrue won → IfOk result (IsTextAt met.now place) }
    ensures overlap { IsTrue overlap → IfOk result (IsTextAt met.now place) }
{
    if won || overlap {
        return Ok(Some(met.text(alloc, place)?));
    }
    Ok(None)
}

// Notes the states of the automaton, in the order of their texts, and answers the texts of those that were new to some rule
// or pair, by their numbers.
fn note_all(
    alloc: Global,
    automaton: &Automaton<'_>,
    met: &StateTexts,
    wins: &mut [u16],
    rows: &mut [Vec<u16>],
) -> Result<Vec<Option<Vec<u8>>>, AllocError>
    requires met { AreStateTexts automaton.now met.now }
    requires few { length met.now ≤ 16384 }
    requires none { AreNoted automaton.now met.now 0 wins.old (lists rows.old) (None ∷ []) }
    ensures { IfOk result (λ texts. NotesAll automaton.now met.now wins.new rows.new texts.items) }
{
    let mut texts = Vec::new(alloc);
    texts.push(None)?;
    for place in 0..met.count() {
        let state = met.state(place);
        let number = place as u16 + 1;
        let won = note_win(wins, automaton.first_rule(state), number);
        let overlap = note_rows(rows, automaton.rules_at(state), number);
        texts.push(text_if(alloc, won, overlap, met, place)?)?;
    }
    Ok(texts)
}

// The text with the number, if there is one.
fn text_with(texts: &[Option<Vec<u8>>], number: u16) -> Option<&[u8]>
    ensures { seen result ≡ slice_index_or (texts_of texts.now) number None }
{
    if number as usize >= texts.len() {
        return None;
    }
    match &texts[number as usize] {
        Some(text) => Some(text.as_slice()),
        None => None,
    }
}

// How many of the numbers have a text, and how many don't.
fn count_texts(texts: &[Option<Vec<u8>>], numbers: &[u16]) -> (usize, usize)
    ensures texts { result.0 ≡ count_by is_some (named (texts_of texts.now) numbers.now) }
    ensures none { result.1 ≡ count_by is_none (named (texts_of texts.now) numbers.now) }
    ensures all { result.0 + result.1 ≡ length numbers.now }
{
    let mut count = 0usize;
    for number in numbers {
        if text_with(texts, *number).is_some() {
            count += 1;
        }
    }
    (count, numbers.len() - count)
}

// The same of all rows.
fn count_pairs(texts: &[Option<Vec<u8>>], rows: &[Vec<u16>]) -> (u64, u64)
    requires few { length rows.now ≤ 2048 }
    requires rows { AreRows (length rows.now) (lists rows.now) }
    ensures overlaps { result.0 ≡ all_some texts.now rows.now }
    ensures disjoint { result.1 ≡ all_none texts.now rows.now }
{
    let mut overlaps = 0u64;
    let mut disjoint = 0u64;
    for row in rows {
        let (both, apart) = count_texts(texts, row);
        overlaps += both as u64;
        disjoint += apart as u64;
    }
    (overlaps, disjoint)
}

impl Lexical {
    /// The least texts of an automaton's rules, of which there are so many.
    pub fn new(alloc: Global, automaton: &Automaton<'_>, rules: u16) -> Result<Lexical, AllocError>
        requires { rules ≡ length automaton.now.patterns }
        ensures { IfOk result (AreLeastTexts (patterns_of automaton.now)) }
    {
        let met = StateTexts::new(alloc, automaton)?;
        let mut wins = vec![in alloc; 0; rules as usize]?;
        let mut rows = no_rows(alloc, rules)?;
        let texts = note_all(alloc, automaton, &met, &mut wins, &mut rows)?;
        Ok(Lexical { wins, rows, texts })
    }

    /// How many rules there are.
    pub fn rules(&self) -> usize
        ensures count { result ≡ rules_of self.now }
        ensures rows { result ≡ length self.now.rows }
    {
        self.wins.len()
    }

    /// The least text that the rule wins. None where it wins none. It takes no memory.
    pub fn wins(&self, rule: u16) -> Option<&[u8]>
        requires from_1 { 0 < rule }
        requires within { rule ≤ rules_of self.now }
        ensures { seen result ≡ win_in self.now rule }
    {
        text_with(&self.texts, self.wins[place_of(rule)])
    }

    /// The least text in which the two rules overlap, of which the first is the lower one. None where there is none. It takes
    /// no memory.
    pub fn both(&self, rule: u16, other: u16) -> Option<&[u8]>
        requires from_1 { 0 < rule }
        requires ascending { rule < other }
        requires within { other ≤ rules_of self.now }
        ensures { seen result ≡ both_in self.now rule other }
    {
        let row = &self.rows[place_of(rule)];
        text_with(&self.texts, row[(other - rule) as usize - 1])
    }

    /// How many rules there are behind this one.
    pub(crate) fn behind(&self, rule: u16) -> usize
        requires from_1 { 0 < rule }
        requires within { rule ≤ rules_of self.now }
        ensures row { result ≡ length (row_in self.now rule) }
        ensures count { rule + result ≡ rules_of self.now }
    {
        self.rows[place_of(rule)].len()
    }

    /// How many rules win nothing.
    pub(crate) fn shadowed(&self) -> usize
        ensures { result ≡ shadowed self.now }
    {
        let (_, apart) = count_texts(&self.texts, &self.wins);
        apart
    }

    /// How many pairs of rules overlap, and how many don't.
    pub(crate) fn pairs(&self) -> (u64, u64)
        requires { rules_of self.now ≤ 2048 }
        ensures overlaps { result.0 ≡ overlaps self.now }
        ensures disjoint { result.1 ≡ disjoint self.now }
    {
        count_pairs(&self.texts, &self.rows)
    }
}
