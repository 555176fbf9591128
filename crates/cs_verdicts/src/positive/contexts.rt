// The least trees of context goals.

ghost use Rattle.std.specs.Prelude.{◌≡◌, IfOk, All};
ghost use Rattle.cs_grammar.specs.Grammar.{IsRuleOf, IsSymbolOf};
ghost use Rattle.cs_goals.specs.Goal.{HasOccurrence, context_goal};
ghost use Rattle.cs_least.specs.Embed.Contexts.{AreContextsOf};
ghost use Rattle.cs_verdicts.specs.Positive.Occurrences.{IsCutAt};
ghost use Rattle.cs_verdicts.specs.Positive.Verdict.{IsGoalCost, HasLeastIn, IsCodeIn};

use crate::positive::sums::{USUAL_RULES, node_cost};
use cs_goals::Occurrence;
use cs_grammar::{Derivation, Grammar, Rule, Symbol, place_of};
use cs_least::{Contexts, Cost, Embeds};
use std::alloc::{AllocError, Global};

// The rules of a context goal, and the symbols beside the inner one's left side in the outer one's right side.
#[derive(Clone, Copy)]
struct Cut<'g> {
    outer: &'g Rule,
    before: &'g [Symbol],
    inner: &'g Rule,
    behind: &'g [Symbol],
}

fn cut_at<'g>(grammar: &'g Grammar, occurrence: Occurrence) -> Cut<'g>
    requires { HasOccurrence grammar.now occurrence }
    ensures cut { IsCutAt grammar.now occurrence result }
    ensures outer { IsRuleOf grammar.now.tokens grammar.now.nonterminals result.outer.now }
    ensures before { All (IsSymbolOf grammar.now) result.before.now }
    ensures inner { IsRuleOf grammar.now.tokens grammar.now.nonterminals result.inner.now }
    ensures behind { All (IsSymbolOf grammar.now) result.behind.now }
{
    let outer_rule = grammar.rule(occurrence.outer);
    let right = outer_rule.right();
    Cut {
        outer: outer_rule,
        before: &right[..place_of(occurrence.place)],
        inner: grammar.rule(occurrence.inner),
        behind: &right[occurrence.place as usize..],
    }
}

// What the least tree costs that meets a context goal.
pub(crate) fn context_cost(embeds: &Embeds, occurrence: Occurrence) -> Cost
    requires { HasOccurrence embeds.now.grammar occurrence }
    ensures { IsGoalCost embeds.now (context_goal occurrence) result }
{
    let costs = embeds.costs();
    let parts = cut_at(embeds.grammar(), occurrence);
    let siblings = costs.plus(costs.sum(parts.before), costs.sum(parts.behind));
    let context = embeds.embed(parts.outer.left());
    let around = costs.plus(context, node_cost(costs, siblings));
    let node = node_cost(costs, costs.sum(parts.inner.right()));
    costs.plus(around, node)
}

// The code of the chosen tree of a context goal.
pub(crate) fn derive_context(
    alloc: Global,
    embeds: &Embeds,
    occurrence: Occurrence,
    contexts: &mut Contexts,
) -> Result<Derivation, AllocError>
    requires goal { HasOccurrence embeds.now.grammar occurrence }
    requires feasible { HasLeastIn embeds.now (context_goal occurrence) }
    requires contexts { AreContextsOf embeds.now contexts.old }
    ensures code { IfOk result (IsCodeIn embeds.now (context_goal occurrence)) }
    ensures contexts { AreContextsOf embeds.now contexts.new }
{
    let costs = embeds.costs();
    let parts = cut_at(embeds.grammar(), occurrence);
    let around = contexts.take(embeds, parts.outer.left())?;
    let mut derivation = Derivation::with_capacity(alloc, USUAL_RULES)?;
    derivation.extend_from_slice(&around.context.before)?;
    derivation.push(occurrence.outer)?;
    costs.all_into(parts.before, &mut derivation)?;
    derivation.push(occurrence.inner)?;
    costs.all_into(parts.inner.right(), &mut derivation)?;
    costs.all_into(parts.behind, &mut derivation)?;
    derivation.extend_from_slice(&around.context.after)?;
    contexts.keep(around);
    Ok(derivation)
}
