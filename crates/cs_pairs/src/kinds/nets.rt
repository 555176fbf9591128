// The rows of the trees that have a token at a side of their yield, by the least ways of their rims.

ghost use Rattle.std.specs.Prelude.{◌≡◌, IfOk};
ghost use Rattle.cs_grammar.specs.Grammar.{IsNumberOf};
ghost use Rattle.cs_pairs.specs.Kinds.Nets.{IsNetOf, AreRowsOn, IsRowOn};

use crate::kinds::rims::{Bases, all_rims};
use crate::kinds::row::Row;
use crate::kinds::side::Side;
use cs_least::{Costs, Source, Steps, least_ways, told_cost};
use std::alloc::{AllocError, Global};

// The steps of one side between all symbols.
#[derive(Debug, Drop)]
pub(crate) struct Net {
    pub(crate) side: Side,
    pub(crate) steps: Steps,
}

pub(crate) fn net_of(alloc: Global, bases: &Bases, side: Side) -> Result<Net, AllocError>
    ensures { IfOk result (λ net. (net.side ≡ side) × IsNetOf bases.now net) }
{
    let grammar = bases.costs.grammar();
    let _rules = grammar.rules();
    let rims = all_rims(alloc, bases, side)?;
    let steps = Steps::new(alloc, grammar.tokens() + grammar.nonterminals(), rims)?;
    Ok(Net { side, steps })
}

// What the least trees of each nonterminal cost that have this token at the side.
fn token_row(alloc: Global, costs: &Costs, net: &Net, token: u16) -> Result<Row, AllocError>
    requires net { IsNetOf costs.now net.now }
    requires token { IsNumberOf costs.now.grammar.tokens token }
    ensures { IfOk result (IsRowOn costs.now net.now.side token) }
{
    let weights = costs.weights();
    let _list = net.steps.list();
    let _rules = costs.grammar().rules();
    let source = Source {
        node: token,
        cost: weights.number(token),
    };
    let table = least_ways(alloc, &net.steps, &[source], weights.limit())?;
    let tokens = costs.grammar().tokens() as usize;
    let mut row = Vec::new(alloc);
    for place in 0..costs.grammar().nonterminals() {
        row.push(told_cost(table[tokens + place as usize]))?;
    }
    Ok(Row::new(row))
}

// The rows of all tokens.
pub(crate) fn token_rows(alloc: Global, costs: &Costs, net: &Net) -> Result<Vec<Row>, AllocError>
    requires { IsNetOf costs.now net.now }
    ensures { IfOk result (λ rows. AreRowsOn costs.now net.now.side rows.items) }
{
    let mut rows = Vec::new(alloc);
    for place in 0..costs.grammar().tokens() {
        rows.push(token_row(alloc, costs, net, place + 1)?)?;
    }
    Ok(rows)
}
