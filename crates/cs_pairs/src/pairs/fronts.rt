// What stands before and behind the places of a rule.

ghost use Rattle.std.specs.Prelude.{IfOk};
ghost use Rattle.cs_grammar.specs.Grammar.{IsSomeRule};
ghost use Rattle.cs_pairs.specs.Pairs.Fronts.{AreFrontsIn, AreBehindsIn, IsAround};

use crate::kinds::Row;
use cs_grammar::Rule;
use cs_least::{Costs, Embeds};
use std::alloc::{AllocError, Global};

// What stands before each place of a rule's right side costs: a context of the left side, the node, and trees of the symbols
// before the place.
fn fronts_of(alloc: Global, embeds: &Embeds, rule: &Rule) -> Result<Row, AllocError>
    requires { IsSomeRule embeds.now.grammar rule.now }
    ensures { IfOk result (AreFrontsIn embeds.now rule.now) }
{
    let costs = embeds.costs();
    let _rules = embeds.grammar().rules();
    let mut fronts = Vec::new(alloc);
    let mut front = costs.plus(costs.node(), embeds.embed(rule.left()));
    for symbol in rule.right() {
        fronts.push(front)?;
        front = costs.plus(front, costs.cost(*symbol));
    }
    Ok(Row::new(fronts))
}

// What any trees of the symbols behind each place of a rule's right side cost.
fn behinds_of(alloc: Global, costs: &Costs, rule: &Rule) -> Result<Row, AllocError>
    requires { IsSomeRule costs.now.grammar rule.now }
    ensures { IfOk result (AreBehindsIn costs.now rule.now) }
{
    let _rules = costs.grammar().rules();
    let right = rule.right();
    let mut behinds = Vec::new(alloc);
    for place in 0..right.len() {
        behinds.push(costs.sum(&right[place + 1..]))?;
    }
    Ok(Row::new(behinds))
}

// The fronts of all rules, and what is behind their places.
#[derive(Debug, Drop)]
pub(crate) struct Around {
    pub(crate) fronts: Vec<Row>,
    pub(crate) behinds: Vec<Row>,
}

pub(crate) fn around_rules(alloc: Global, embeds: &Embeds) -> Result<Around, AllocError>
    ensures { IfOk result (IsAround embeds.now) }
{
    let mut around = Around {
        fronts: Vec::new(alloc),
        behinds: Vec::new(alloc),
    };
    for rule in embeds.grammar().rules() {
        around.fronts.push(fronts_of(alloc, embeds, rule)?)?;
        around
            .behinds
            .push(behinds_of(alloc, embeds.costs(), rule)?)?;
    }
    Ok(around)
}
