// The verdict of a goal.

ghost use Rattle.std.specs.Prelude.{IfOk};
ghost use Rattle.cs_goals.specs.Goal.{IsGoal};
ghost use Rattle.cs_least.specs.Embed.Contexts.{AreContextsOf};
ghost use Rattle.cs_verdicts.specs.Positive.Verdict.{IsVerdictIn, IsTreeGoal, IsGoalCost, HasLeastIn, IsCodeIn};

use crate::positive::contexts::{context_cost, derive_context};
use crate::positive::pairs::judge_pair;
use crate::positive::rules::{derive_rule, rule_cost};
use crate::positive::tables::Tables;
use crate::positive::verdict::Verdict;
use cs_goals::{Goal, Occurrence};
use cs_grammar::Derivation;
use cs_least::{Contexts, Cost, Embeds};
use cs_pairs::Kept;
use std::alloc::{AllocError, Global};

/// The verdict of a goal of the grammar, over all trees of the start symbol: `Infeasible` exactly where none meets the goal,
/// `Large` exactly where one does and the least of them is larger than the limit, else the least size and the code of the
/// chosen tree.
pub fn judge(alloc: Global, tables: &Tables, goal: &Goal) -> Result<Verdict, AllocError>
    requires { IsGoal tables.now.grammar goal.now }
    ensures { IfOk result (IsVerdictIn tables.now goal.now) }
{
    let mut kept = Kept::new(tables.embeds());
    judge_keeping(alloc, tables, goal, &mut kept)
}

// The same, by contexts that are kept from goal to goal.
pub(crate) fn judge_keeping(
    alloc: Global,
    tables: &Tables,
    goal: &Goal,
    kept: &mut Kept,
) -> Result<Verdict, AllocError>
    requires goal { IsGoal tables.now.grammar goal.now }
    requires contexts { AreContextsOf tables.now kept.old.contexts }
    ensures verdict { IfOk result (IsVerdictIn tables.now goal.now) }
    ensures contexts { AreContextsOf tables.now kept.new.contexts }
{
    match *goal {
        Goal::Pair { left, right } => judge_pair(alloc, tables, kept, left, right),
        _ => judge_tree_keeping(alloc, tables.embeds(), goal, &mut kept.contexts),
    }
}

/// The verdict of a rule goal or a context goal, as `judge` gives it, without the tables of pairs.
pub fn judge_tree_goal(alloc: Global, embeds: &Embeds, goal: &Goal) -> Result<Verdict, AllocError>
    requires goal { IsGoal embeds.now.grammar goal.now }
    requires kind { IsTreeGoal goal.now }
    ensures { IfOk result (IsVerdictIn embeds.now goal.now) }
{
    let mut contexts = Contexts::new(embeds);
    judge_tree_keeping(alloc, embeds, goal, &mut contexts)
}

// The same, by contexts that are kept from goal to goal.
pub(crate) fn judge_tree_keeping(
    alloc: Global,
    embeds: &Embeds,
    goal: &Goal,
    contexts: &mut Contexts,
) -> Result<Verdict, AllocError>
    requires goal { IsGoal embeds.now.grammar goal.now }
    requires kind { IsTreeGoal goal.now }
    requires contexts { AreContextsOf embeds.now contexts.old }
    ensures verdict { IfOk result (IsVerdictIn embeds.now goal.now) }
    ensures contexts { AreContextsOf embeds.now contexts.new }
{
    match goal_cost(embeds, goal) {
        Cost::Never => Ok(Verdict::Infeasible),
        Cost::Large => Ok(Verdict::Large),
        Cost::Least(size) => {
            let derivation = derive_goal(alloc, embeds, goal, contexts)?;
            Ok(Verdict::Feasible { size, derivation })
        }
    }
}

// What the least tree costs that meets a rule goal or a context goal.
fn goal_cost(embeds: &Embeds, goal: &Goal) -> Cost
    requires goal { IsGoal embeds.now.grammar goal.now }
    requires kind { IsTreeGoal goal.now }
    ensures { IsGoalCost embeds.now goal.now result }
{
    match *goal {
        Goal::Rule(rule) => rule_cost(embeds, rule),
        Goal::Context {
            outer,
            place,
            inner,
        } => context_cost(
            embeds,
            Occurrence {
                outer,
                place,
                inner,
            },
        ),
        Goal::Pair { .. } => unreachable!(),
    }
}

// The code of the chosen tree of a rule goal or a context goal.
fn derive_goal(
    alloc: Global,
    embeds: &Embeds,
    goal: &Goal,
    contexts: &mut Contexts,
) -> Result<Derivation, AllocError>
    requires goal { IsGoal embeds.now.grammar goal.now }
    requires kind { IsTreeGoal goal.now }
    requires feasible { HasLeastIn embeds.now goal.now }
    requires contexts { AreContextsOf embeds.now contexts.old }
    ensures code { IfOk result (IsCodeIn embeds.now goal.now) }
    ensures contexts { AreContextsOf embeds.now contexts.new }
{
    match *goal {
        Goal::Rule(rule) => derive_rule(alloc, embeds, rule, contexts),
        Goal::Context {
            outer,
            place,
            inner,
        } => derive_context(
            alloc,
            embeds,
            Occurrence {
                outer,
                place,
                inner,
            },
            contexts,
        ),
        Goal::Pair { .. } => unreachable!(),
    }
}
