// What the least context of each nonterminal costs, and the first step of the chosen one: a context is a way from the start
// symbol.

ghost use Rattle.std.specs.Prelude.{◌≡◌, IfOk};
ghost use Rattle.cs_least.specs.Embed.Ways.{told_cost};
ghost use Rattle.cs_least.specs.Embed.Kept.{AreTablesOf};

use crate::cost::{Cost, Costs};
use crate::embed::inwards::{Inwards, RulePlace, all_inwards};
use crate::ways::{Reach, Source, Steps, first_steps, least_ways};
use std::alloc::{AllocError, Global};

// The place to which each step leads, what is told of the ways to each nonterminal, and which step the first of the least
// ones takes last.
#[derive(Debug, Drop)]
pub(crate) struct Tables {
    pub(crate) places: Vec<RulePlace>,
    pub(crate) reaches: Vec<Reach>,
    pub(crate) firsts: Vec<Option<usize>>,
}

/// What is told of a node, as a cost.
pub fn told_cost(reach: Reach) -> Cost
    ensures { result ≡ told_cost reach }
{
    match reach {
        Reach::Never => Cost::Never,
        Reach::Large => Cost::Large,
        Reach::Least { cost, .. } => Cost::Least(cost),
    }
}

pub(crate) fn tables_of(alloc: Global, costs: &Costs) -> Result<Tables, AllocError>
    ensures { IfOk result (AreTablesOf costs.now) }
{
    let grammar = costs.grammar();
    let _rules = grammar.rules();
    let Inwards { places, steps } = all_inwards(alloc, costs)?;
    let net = Steps::new(alloc, grammar.nonterminals(), steps)?;
    let source = Source {
        node: grammar.start(),
        cost: 0,
    };
    let reaches = least_ways(alloc, &net, &[source], costs.weights().limit())?;
    let firsts = first_steps(alloc, &net, &reaches)?;
    Ok(Tables {
        places,
        reaches,
        firsts,
    })
}
