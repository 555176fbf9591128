// The closed sets of a grammar, collected from its tables.

ghost use Rattle.std.specs.Prelude.{◌≡◌, ◌↔◌, IfOk, IsTrue};
ghost use Rattle.cs_goals.specs.Goal.{IsLeft};
ghost use Rattle.cs_grammar.specs.Grammar.{IsNumberOf};
ghost use Rattle.cs_verdicts.specs.Closed.Closed.{AreNext, HasContext, HasTree};
ghost use Rattle.cs_verdicts.specs.Closed.Collecting.{AreAllEdges, AreAllNext, AreAllWith, AreNextTokens, Has, IsAtEdge, IsProperty, last_of};

use crate::closed::closed::{Marks, Tokens};
use crate::positive::Tables;
use cs_grammar::{Mark, Symbol};
use cs_least::Cost;
use std::alloc::{AllocError, Global};

// What nonterminals may have, and tokens by a nonterminal.
#[derive(Clone, Copy)]
pub(crate) enum Property {
    Productive,
    Reachable,
    Empty,
    AtEdge(Edge, u16),
}

// An end of what a nonterminal yields.
#[derive(Clone, Copy)]
pub(crate) enum Edge {
    First,
    Last,
}

fn has(tables: &Tables<'_>, property: Property, number: u16) -> bool
    requires property { IsProperty tables.now.grammar property }
    requires number { IsNumberOf (last_of tables.now.grammar property) number }
    ensures { IsTrue result ↔ Has tables.now.grammar property number }
{
    match property {
        Property::Productive => is_productive(tables, number),
        Property::Reachable => is_reachable(tables, number),
        Property::Empty => tables.pairs().empty(number),
        Property::AtEdge(edge, nonterminal) => is_at_edge(tables, edge, nonterminal, number),
    }
}

fn is_productive(tables: &Tables<'_>, nonterminal: u16) -> bool
    requires { IsNumberOf tables.now.grammar.nonterminals nonterminal }
    ensures { IsTrue result ↔ HasTree tables.now.grammar nonterminal }
{
    !matches!(
        tables.costs().cost(Symbol::Nonterminal(nonterminal)),
        Cost::Never
    )
}

fn is_reachable(tables: &Tables<'_>, nonterminal: u16) -> bool
    requires { IsNumberOf tables.now.grammar.nonterminals nonterminal }
    ensures { IsTrue result ↔ HasContext tables.now.grammar nonterminal }
{
    !matches!(tables.embeds().embed(nonterminal), Cost::Never)
}

fn is_at_edge(tables: &Tables<'_>, edge: Edge, nonterminal: u16, token: u16) -> bool
    requires nonterminal { IsNumberOf tables.now.grammar.nonterminals nonterminal }
    requires token { IsNumberOf tables.now.grammar.tokens token }
    ensures { IsTrue result ↔ IsAtEdge tables.now.grammar edge nonterminal token }
{
    match edge {
        Edge::First => tables.pairs().first(nonterminal, token),
        Edge::Last => tables.pairs().last(nonterminal, token),
    }
}

/// The numbers from 1 to the last that have the property.
pub(crate) fn numbers_with(
    alloc: Global,
    tables: &Tables<'_>,
    property: Property,
    last: u16,
) -> Result<Vec<u16>, AllocError>
    requires property { IsProperty tables.now.grammar property }
    requires last { last ≡ last_of tables.now.grammar property }
    ensures { IfOk result (λ list. AreAllWith tables.now.grammar property last list.items) }
{
    let mut list = Vec::new(alloc);
    for place in 0..last {
        if has(tables, property, place + 1) {
            list.push(place + 1)?;
        }
    }
    Ok(list)
}

/// For each nonterminal the tokens at an edge of what it yields.
pub(crate) fn edges(
    alloc: Global,
    tables: &Tables<'_>,
    edge: Edge,
) -> Result<Vec<Tokens>, AllocError>
    ensures { IfOk result (λ sets. AreAllEdges tables.now.grammar edge sets.items) }
{
    let grammar = tables.grammar();
    let mut sets = Vec::new(alloc);
    for place in 0..grammar.nonterminals() {
        let property = Property::AtEdge(edge, place + 1);
        let tokens = numbers_with(alloc, tables, property, grammar.tokens())?;
        sets.push(Tokens::new(tokens))?;
    }
    Ok(sets)
}

/// The marks that are adjacent behind a mark.
pub(crate) fn next_to(alloc: Global, tables: &Tables<'_>, mark: Mark) -> Result<Marks, AllocError>
    requires { IsLeft tables.now.grammar.tokens mark }
    ensures { IfOk result (AreNext tables.now.grammar mark) }
{
    let mut list = tokens_next_to(alloc, tables, mark)?;
    if tables.pairs().adjacent(mark, Mark::End) {
        list.push(Mark::End)?;
    }
    Ok(Marks::new(list))
}

// The tokens among them.
fn tokens_next_to(alloc: Global, tables: &Tables<'_>, mark: Mark) -> Result<Vec<Mark>, AllocError>
    requires { IsLeft tables.now.grammar.tokens mark }
    ensures { IfOk result (λ list. AreNextTokens tables.now.grammar mark list.items) }
{
    let pairs = tables.pairs();
    let mut list = Vec::new(alloc);
    for place in 0..tables.grammar().tokens() {
        let token = Mark::Token(place + 1);
        if pairs.adjacent(mark, token) {
            list.push(token)?;
        }
    }
    Ok(list)
}

/// For each token the marks that are adjacent behind it.
pub(crate) fn nexts(alloc: Global, tables: &Tables<'_>) -> Result<Vec<Marks>, AllocError>
    ensures { IfOk result (λ sets. AreAllNext tables.now.grammar sets.items) }
{
    let mut sets = Vec::new(alloc);
    for place in 0..tables.grammar().tokens() {
        sets.push(next_to(alloc, tables, Mark::Token(place + 1))?)?;
    }
    Ok(sets)
}
