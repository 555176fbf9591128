// The closed sets of a grammar.

ghost use Rattle.std.specs.Prelude.{◌≡◌, IfOk};
ghost use Rattle.cs_verdicts.specs.Closed.Closed.{AreClosedSets};

use crate::closed::collecting::{Edge, Property, edges, next_to, nexts, numbers_with};
use crate::positive::Tables;
use cs_grammar::Mark;
use std::alloc::{AllocError, Global};
use std::marker::Model;

/// Tokens, in the order of their numbers.
#[derive(Debug, Drop)]
pub struct Tokens {
    list: Vec<u16>,
}

impl Model for Tokens {
    ghost use Rattle.std.specs.Prelude.{List, ℕ};

    ghost Value = { List ℕ };

    ghost view = { λ t. t.list.items };
}

impl Tokens {
    pub(crate) fn new(list: Vec<u16>) -> Tokens
        ensures { result ≡ list.items }
    {
        Tokens { list }
    }

    /// Their numbers.
    pub fn list(&self) -> &[u16]
        ensures { result.now ≡ self.now }
    {
        &self.list
    }
}

/// Marks: tokens in the order of their numbers, and the end mark behind them.
#[derive(Debug, Drop)]
pub struct Marks {
    list: Vec<Mark>,
}

impl Model for Marks {
    ghost use Rattle.std.specs.Prelude.{List};
    ghost use Rattle.cs_grammar.specs.declared.symbol.Mark.{Mark};

    ghost Value = { List Mark };

    ghost view = { λ m. m.list.items };
}

impl Marks {
    pub(crate) fn new(list: Vec<Mark>) -> Marks
        ensures { result ≡ list.items }
    {
        Marks { list }
    }

    /// The marks.
    pub fn list(&self) -> &[Mark]
        ensures { result.now ≡ self.now }
    {
        &self.list
    }
}

/// The closed sets of a grammar, by which its verdicts can be checked: which nonterminals have a tree, a context and a tree of
/// empty yield, which tokens begin and end the yields of each, and which marks follow the begin mark and each token.
#[derive(Debug, Drop)]
pub struct Closed {
    productive: Vec<u16>,
    reachable: Vec<u16>,
    empty: Vec<u16>,
    first: Vec<Tokens>,
    last: Vec<Tokens>,
    begin: Marks,
    next: Vec<Marks>,
}

impl Model for Closed {
    ghost use Rattle.cs_verdicts.specs.Closed.Closed.{ClosedSets};

    ghost Value = { ClosedSets };

    ghost view = { λ c. record {
      productive = c.productive.items;
      reachable = c.reachable.items;
      empty = c.empty.items;
      first = c.first.items;
      last = c.last.items;
      begin = c.begin;
      next = c.next.items;
    } };
}

impl Closed {
    /// The closed sets of a grammar by its tables.
    pub fn new(alloc: Global, tables: &Tables<'_>) -> Result<Closed, AllocError>
        ensures { IfOk result (AreClosedSets tables.now.grammar) }
    {
        let last = tables.grammar().nonterminals();
        Ok(Closed {
            productive: numbers_with(alloc, tables, Property::Productive, last)?,
            reachable: numbers_with(alloc, tables, Property::Reachable, last)?,
            empty: numbers_with(alloc, tables, Property::Empty, last)?,
            first: edges(alloc, tables, Edge::First)?,
            last: edges(alloc, tables, Edge::Last)?,
            begin: next_to(alloc, tables, Mark::Begin)?,
            next: nexts(alloc, tables)?,
        })
    }

    /// The nonterminals that have a tree.
    pub fn productive(&self) -> &[u16]
        ensures { result.now ≡ self.now.productive }
    {
        &self.productive
    }

    /// The nonterminals that have a context.
    pub fn reachable(&self) -> &[u16]
        ensures { result.now ≡ self.now.reachable }
    {
        &self.reachable
    }

    /// The nonterminals that have a tree of empty yield.
    pub fn empty(&self) -> &[u16]
        ensures { result.now ≡ self.now.empty }
    {
        &self.empty
    }

    /// For each nonterminal the tokens that a tree of it begins with.
    pub fn first(&self) -> &[Tokens]
        ensures { result.now ≡ self.now.first }
    {
        &self.first
    }

    /// For each nonterminal the tokens that a tree of it ends with.
    pub fn last(&self) -> &[Tokens]
        ensures { result.now ≡ self.now.last }
    {
        &self.last
    }

    /// The marks that are adjacent behind the begin mark.
    pub fn begin(&self) -> &[Mark]
        ensures { result.now ≡ self.now.begin }
    {
        self.begin.list()
    }

    /// For each token the marks that are adjacent behind it.
    pub fn next(&self) -> &[Marks]
        ensures { result.now ≡ self.now.next }
    {
        &self.next
    }
}
