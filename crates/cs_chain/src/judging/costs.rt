// What the parts of a chain's least tree cost, and their codes.

ghost use Rattle.std.specs.Prelude.{◌≡◌, IfOk};
ghost use Rattle.cs_grammar.specs.Grammar.{IsRuleOf};
ghost use Rattle.cs_least.specs.Cost.Rank.{IsCapped};
ghost use Rattle.cs_least.specs.Cost.Trees.{AreTreesCost};
ghost use Rattle.cs_chain.specs.Judging.Cuts.{FitsRules, node_cost};
ghost use Rattle.cs_chain.specs.Judging.Frame.{AreCodesAround, IsFrameCost, IsSmallFrame, symbols_of};

use crate::chains::Chain;
use crate::judging::cuts::Rules;
use cs_grammar::Derivation;
use cs_least::{Cost, Costs, Embeds};
use std::alloc::{AllocError, Global};

// Room for as many rule numbers of a derivation is made at once.
pub(crate) const USUAL_RULES: usize = 32;

// A node above its children.
pub(crate) fn node_cost(costs: &Costs, children: Cost) -> Cost
    requires { IsCapped costs.now.weights.limit children }
    ensures cost { result ≡ node_cost costs.now.weights.limit children }
    ensures capped { IsCapped costs.now.weights.limit result }
{
    costs.plus(costs.node(), children)
}

// What all but the inner node costs.
pub(crate) fn frame_cost(embeds: &Embeds, rules: &Rules<'_>) -> Cost
    requires { FitsRules embeds.now.grammar rules.now }
    ensures cost { IsFrameCost embeds.now (symbols_of rules.now) result }
    ensures capped { IsCapped embeds.now.weights.limit result }
{
    let costs = embeds.costs();
    let high = costs.plus(costs.sum(rules.outer.before), costs.sum(rules.outer.behind));
    let low = costs.plus(
        costs.sum(rules.middle.before),
        costs.sum(rules.middle.behind),
    );
    let context = embeds.embed(rules.outer.rule.left());
    let outer = costs.plus(context, node_cost(costs, high));
    costs.plus(outer, node_cost(costs, low))
}

// The rule numbers of the chosen tree of a chain before its inner node and behind it.
pub(crate) fn frame_codes(
    alloc: Global,
    embeds: &Embeds,
    chain: &Chain,
    rules: &Rules<'_>,
) -> Result<(Derivation, Derivation), AllocError>
    requires fits { FitsRules embeds.now.grammar rules.now }
    requires small { IsSmallFrame embeds.now (symbols_of rules.now) }
    ensures { IfOk result (AreCodesAround embeds.now chain.now rules.now) }
{
    let costs = embeds.costs();
    let around = embeds.around(rules.outer.rule.left())?;
    let mut before = Derivation::with_capacity(alloc, USUAL_RULES)?;
    before.extend_from_slice(&around.before)?;
    before.push(chain.outer)?;
    costs.all_into(rules.outer.before, &mut before)?;
    before.push(chain.middle)?;
    costs.all_into(rules.middle.before, &mut before)?;
    let mut behind = Derivation::with_capacity(alloc, USUAL_RULES)?;
    costs.all_into(rules.middle.behind, &mut behind)?;
    costs.all_into(rules.outer.behind, &mut behind)?;
    behind.extend_from_slice(&around.after)?;
    Ok((before, behind))
}
