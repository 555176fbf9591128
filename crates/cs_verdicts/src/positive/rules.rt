// The least trees of rule goals.

ghost use Rattle.std.specs.Prelude.{◌≡◌, IfOk, length};
ghost use Rattle.cs_grammar.specs.Grammar.{IsNumberOf};
ghost use Rattle.cs_least.specs.Embed.Contexts.{AreContextsOf};
ghost use Rattle.cs_verdicts.specs.Positive.Verdict.{IsGoalCost, HasLeastIn, IsCodeIn};

use crate::positive::sums::{USUAL_RULES, node_cost};
use cs_goals::Goal;
use cs_grammar::Derivation;
use cs_least::{Contexts, Cost, Embeds};
use std::alloc::{AllocError, Global};

// What the least tree costs that meets a rule goal.
pub(crate) fn rule_cost(embeds: &Embeds, number: u16) -> Cost
    requires { IsNumberOf (length embeds.now.grammar.rules) number }
    ensures { IsGoalCost embeds.now (Goal.Rule number) result }
{
    let costs = embeds.costs();
    let rule = embeds.grammar().rule(number);
    let around = embeds.embed(rule.left());
    let node = node_cost(costs, costs.sum(rule.right()));
    costs.plus(around, node)
}

// The code of the chosen tree of a rule goal.
pub(crate) fn derive_rule(
    alloc: Global,
    embeds: &Embeds,
    number: u16,
    contexts: &mut Contexts,
) -> Result<Derivation, AllocError>
    requires number { IsNumberOf (length embeds.now.grammar.rules) number }
    requires feasible { HasLeastIn embeds.now (Goal.Rule number) }
    requires contexts { AreContextsOf embeds.now contexts.old }
    ensures code { IfOk result (IsCodeIn embeds.now (Goal.Rule number)) }
    ensures contexts { AreContextsOf embeds.now contexts.new }
{
    let costs = embeds.costs();
    let rule = embeds.grammar().rule(number);
    let around = contexts.take(embeds, rule.left())?;
    let mut derivation = Derivation::with_capacity(alloc, USUAL_RULES)?;
    derivation.extend_from_slice(&around.context.before)?;
    derivation.push(number)?;
    costs.all_into(rule.right(), &mut derivation)?;
    derivation.extend_from_slice(&around.context.after)?;
    contexts.keep(around);
    Ok(derivation)
}
