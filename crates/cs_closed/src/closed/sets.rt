// Sets of nonterminals, tokens and marks.

ghost use Rattle.std.specs.Prelude.{◌≡◌, ◌↔◌, IsTrue, length, false, replicate, IfOk};
ghost use Rattle.cs_grammar.specs.Grammar.{IsNumberOf};
ghost use Rattle.cs_closed.specs.Closed.Sets.{IsIn, IsPair, IsNext, IsWith, AreSetsOf, no_sets};

use cs_grammar::{Grammar, Mark, place_of};
use std::alloc::{AllocError, Global};
use std::marker::Model;

/// A set of numbers from 1 to a last one: for each of them whether it is in the set.
#[derive(Debug, Drop)]
pub struct Set {
    members: Vec<bool>,
}

impl Model for Set {
    ghost use Rattle.std.specs.Prelude.{Bool, List};

    ghost Value = { List Bool };

    ghost view = { λ s. s.members.items };
}

impl Set {
    /// The set of these.
    pub fn new(members: Vec<bool>) -> Set
        ensures { result ≡ members.items }
    {
        Set { members }
    }

    /// No number, of those up to a last one.
    pub fn none(alloc: Global, last: u16) -> Result<Set, AllocError>
        ensures { IfOk result (λ set. set ≡ replicate last false) }
    {
        let members = vec![in alloc; false; last as usize]?;
        Ok(Set { members })
    }

    /// Puts a number in.
    pub fn insert(&mut self, number: u16)
        requires { IsNumberOf (length self.old) number }
        ensures members { IsWith self.old number self.new }
        ensures length { length self.new ≡ length self.old }
    {
        self.members[place_of(number)] = true;
    }

    /// For each number whether it is in the set.
    pub fn members(&self) -> &[bool]
        ensures { result.now ≡ self.now }
    {
        &self.members
    }
}

/// The sets that a manifest claims of a grammar. Of a table by tokens the first set is that of token 1.
#[derive(Debug, Drop)]
pub struct Sets {
    /// The nonterminals that have a tree.
    pub productive: Set,
    /// The nonterminals that have a context.
    pub reachable: Set,
    /// The nonterminals that have a tree of empty yield.
    pub empty: Set,
    /// For each token the nonterminals of which a yield begins with it.
    pub first: Vec<Set>,
    /// For each token the nonterminals of which a yield ends with it.
    pub last: Vec<Set>,
    /// The tokens that stand behind the begin mark.
    pub begin: Set,
    /// For each token the tokens that stand before it.
    pub next: Vec<Set>,
    /// The tokens that stand before the end mark.
    pub end: Set,
    /// Whether the end mark stands behind the begin mark.
    pub bare: bool,
}

impl Model for Sets {
    ghost use Rattle.cs_closed.specs.Closed.Sets.{PlainSets};

    ghost Value = { PlainSets };

    ghost view = { λ s. record {
      productive = s.productive;
      reachable = s.reachable;
      empty = s.empty;
      first = s.first.items;
      last = s.last.items;
      begin = s.begin;
      next = s.next.items;
      end = s.end;
      bare = s.bare;
    } };
}

// Whether the number is in the set.
pub(crate) fn has(set: &[bool], number: u16) -> bool
    ensures { IsTrue result ↔ IsIn set.now number }
{
    if number == 0 {
        return false;
    }
    match set.get(place_of(number)) {
        Some(is_in) => *is_in,
        None => false,
    }
}

// Whether the set of the second number has the first.
pub(crate) fn has_pair(table: &[Set], number: u16, second: u16) -> bool
    ensures { IsTrue result ↔ IsPair table.now number second }
{
    if second == 0 {
        return false;
    }
    match table.get(place_of(second)) {
        Some(set) => has(set.members(), number),
        None => false,
    }
}

// So many sets of no number, each of those up to a last one.
fn table(alloc: Global, rows: u16, last: u16) -> Result<Vec<Set>, AllocError>
    ensures { IfOk result (λ table. table.items ≡ replicate rows (replicate last false)) }
{
    let mut table = Vec::with_capacity(alloc, rows as usize)?;
    for _row in 0..rows {
        table.push(Set::none(alloc, last)?)?;
    }
    Ok(table)
}

impl Sets {
    /// Sets of a grammar's numbers, with nothing in them.
    pub fn none(alloc: Global, grammar: &Grammar) -> Result<Sets, AllocError>
        ensures none { IfOk result (λ sets. sets ≡ no_sets grammar.now) }
        ensures fits { IfOk result (AreSetsOf grammar.now) }
    {
        let tokens = grammar.tokens();
        let nonterminals = grammar.nonterminals();
        Ok(Sets {
            productive: Set::none(alloc, nonterminals)?,
            reachable: Set::none(alloc, nonterminals)?,
            empty: Set::none(alloc, nonterminals)?,
            first: table(alloc, tokens, nonterminals)?,
            last: table(alloc, tokens, nonterminals)?,
            begin: Set::none(alloc, tokens)?,
            next: table(alloc, tokens, tokens)?,
            end: Set::none(alloc, tokens)?,
            bare: false,
        })
    }

    /// Whether the tables are of the grammar's numbers: one first and one last set for each token, and no last set longer than
    /// there are nonterminals.
    pub fn fits(&self, grammar: &Grammar) -> bool
        ensures { IsTrue result ↔ AreSetsOf grammar.now self.now }
    {
        let nonterminals = grammar.nonterminals() as usize;
        let tokens = grammar.tokens() as usize;
        self.first.len() == tokens
            && self.last.len() == tokens
            && self
                .last
                .iter()
                .all(|set| set.members().len() <= nonterminals)
    }

    // Whether the mark on the right stands in the line of the mark on the left.
    pub(crate) fn is_next(&self, left: Mark, right: Mark) -> bool
        ensures { IsTrue result ↔ IsNext self.now left right }
    {
        match (left, right) {
            (Mark::Begin, Mark::Token(b)) => has(self.begin.members(), b),
            (Mark::Begin, Mark::End) => self.bare,
            (Mark::Token(a), Mark::Token(b)) => has_pair(&self.next, a, b),
            (Mark::Token(a), Mark::End) => has(self.end.members(), a),
            _ => false,
        }
    }
}
