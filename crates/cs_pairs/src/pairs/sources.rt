// The nodes at which a token may directly follow a child: where the ways inwards begin, to the token that the child ends with.

ghost use Rattle.std.specs.Prelude.{◌+◌, IfOk, OnOk, length};
ghost use Rattle.cs_grammar.specs.Grammar.{IsNumberOf};
ghost use Rattle.cs_pairs.specs.Pairs.Fronts.{AreFrontsOf, AreBehindsOf, IsAround};
ghost use Rattle.cs_pairs.specs.Pairs.Sources.{AreSourcesBack, AreAllSources};

use crate::kinds::{Kinds, Sweep, TreeKind, step_cost, symbol_number};
use crate::pairs::fronts::Around;
use crate::pairs::meeting::Meeting;
use cs_grammar::number_of;
use cs_least::{Cost, Source};
use std::alloc::{AllocError, Global};

// The sources of ways, and the rule and place of each.
#[derive(Debug, Drop)]
pub(crate) struct Sources {
    pub(crate) places: Vec<Meeting>,
    pub(crate) list: Vec<Source>,
}

// Appends the sources at the places of a rule, from the last to the first.
fn push_sources(
    kinds: &Kinds,
    token: u16,
    number: u16,
    fronts: &[Cost],
    behinds: &[Cost],
    sources: &mut Sources,
) -> Result<(), AllocError>
    requires token { IsNumberOf kinds.now.grammar.tokens token }
    requires number { IsNumberOf (length kinds.now.grammar.rules) number }
    requires fronts { AreFrontsOf kinds.now.weights kinds.now.grammar number fronts.now }
    requires behinds { AreBehindsOf kinds.now.weights kinds.now.grammar number behinds.now }
    requires sources { AreSourcesBack kinds.now token (number + 1) sources.old }
    ensures { OnOk result (AreSourcesBack kinds.now token number sources.new) }
{
    let grammar = kinds.grammar();
    let _rules = grammar.rules();
    let rule = grammar.rule(number);
    let right = rule.right();
    let mut sweep = Sweep::new(TreeKind::Begins(token));
    for place in (0..right.len()).rev() {
        let symbol = right[place];
        let cost = kinds.plus(fronts[place], sweep.whole);
        if let Some(cost) = step_cost(kinds.weights(), cost) {
            let node = symbol_number(grammar.tokens(), symbol);
            sources.places.push(Meeting {
                rule: number,
                place: place as u16,
            })?;
            sources.list.push(Source { node, cost })?;
        }
        sweep.rest = behinds[place];
        sweep = sweep.over(kinds, symbol);
    }
    Ok(())
}

// All sources of a second token, in the order of their rules and places.
pub(crate) fn sources_of(
    alloc: Global,
    kinds: &Kinds,
    around: &Around,
    token: u16,
) -> Result<Sources, AllocError>
    requires token { IsNumberOf kinds.now.grammar.tokens token }
    requires around { IsAround kinds.now around.now }
    ensures { IfOk result (AreAllSources kinds.now token) }
{
    let mut sources = Sources {
        places: Vec::new(alloc),
        list: Vec::new(alloc),
    };
    for place in (0..kinds.grammar().rules().len()).rev() {
        push_sources(
            kinds,
            token,
            number_of(place),
            around.fronts[place].costs(),
            around.behinds[place].costs(),
            &mut sources,
        )?;
    }
    sources.places.reverse();
    sources.list.reverse();
    Ok(sources)
}
