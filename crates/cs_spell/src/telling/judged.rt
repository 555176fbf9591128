// The verdicts of rule goals, with the tokens of their derivations.

ghost use Rattle.std.specs.Prelude.{◌≡◌, ◌<◌, ◌+◌, IfOk, length};
ghost use Rattle.cs_goals.specs.declared.goal.Goal.TheVariants as goals;
ghost use Rattle.cs_manifest.specs.Manifest.Manifest.{AreTokensOf};
ghost use Rattle.cs_spell.specs.Telling.Chosen.{AreRuleVerdicts, IsRuleVerdict, RuleVerdict};
ghost use Rattle.cs_spell.specs.Telling.Telling.{AreFewTokens};
ghost use Rattle.cs_verdicts.specs.Positive.Verdict.{IsVerdictIn};

use cs_goals::Goal;
use cs_grammar::{Grammar, number_of, yield_of};
use cs_least::Embeds;
use cs_verdicts::{Verdict, judge_tree_goal};
use std::alloc::{AllocError, Global};
use std::marker::Model;

/// The verdict of a rule goal, and the tokens of its derivation, where it has one.
#[derive(Debug, Drop)]
pub(crate) struct Judged {
    verdict: Verdict,
    tokens: Vec<u16>,
}

impl Model for Judged {
    ghost use Rattle.cs_spell.specs.Telling.Chosen.{RuleVerdict};

    ghost Value = { RuleVerdict };

    ghost view = { λ j. record { verdict = j.verdict; tokens = j.tokens.items } };
}

impl Judged {
    pub(crate) fn new(verdict: Verdict, tokens: Vec<u16>) -> Judged
        ensures { result ≡ record { verdict = verdict; tokens = tokens.items } }
    {
        Judged { verdict, tokens }
    }

    pub(crate) fn verdict(&self) -> &Verdict
        ensures { result.now ≡ self.now.verdict }
    {
        &self.verdict
    }

    pub(crate) fn tokens(&self) -> &[u16]
        ensures { result.now ≡ self.now.tokens }
    {
        &self.tokens
    }
}

// The tokens of a rule goal's derivation. Where it has none, there are none.
fn tokens_of(
    alloc: Global,
    embeds: &Embeds<'_>,
    rule: u16,
    verdict: &Verdict,
) -> Result<Vec<u16>, AllocError>
    requires { IsVerdictIn embeds.now (goals.Rule rule) verdict.now }
    ensures { IfOk result (λ tokens. AreTokensOf embeds.now.grammar verdict.now tokens.items) }
{
    match verdict {
        Verdict::Feasible { derivation, .. } => yield_of(alloc, embeds.grammar(), derivation),
        Verdict::Infeasible | Verdict::Large => Ok(Vec::new(alloc)),
    }
}

// The verdict of the rule at the place.
fn judge_rule(alloc: Global, embeds: &Embeds<'_>, place: usize) -> Result<Judged, AllocError>
    requires place { place < length embeds.now.grammar.rules }
    requires few { place < 65535 }
    ensures { IfOk result (IsRuleVerdict embeds.now (place + 1)) }
{
    let rule = number_of(place);
    let verdict = judge_tree_goal(alloc, embeds, &Goal::Rule(rule))?;
    let tokens = tokens_of(alloc, embeds, rule, &verdict)?;
    Ok(Judged::new(verdict, tokens))
}

/// The verdicts of all rule goals, in order.
pub(crate) fn judge_rules(alloc: Global, embeds: &Embeds<'_>) -> Result<Vec<Judged>, AllocError>
    ensures judged { IfOk result (λ judged. AreRuleVerdicts embeds.now judged.items) }
    ensures few { IfOk result (λ judged. AreFewTokens embeds.now.grammar.tokens judged.items) }
{
    let _weighs = embeds.costs().weights();
    let mut judged = Vec::new(alloc);
    let rules = embeds.grammar().rules().len();
    for place in 0..rules {
        judged.push(judge_rule(alloc, embeds, place)?)?;
    }
    Ok(judged)
}
