// The rules of a chain, cut at its places.

ghost use Rattle.std.specs.Prelude.{All};
ghost use Rattle.cs_grammar.specs.Grammar.{IsRuleOf, IsSymbolOf};
ghost use Rattle.cs_goals.specs.Goal.{IsOccurrence};
ghost use Rattle.cs_chain.specs.Chains.Chain.{IsChain};
ghost use Rattle.cs_chain.specs.Judging.Cuts.{IsCutAt, AreRulesOf, FitsCut, FitsRules};

use crate::chains::Chain;
use cs_grammar::{Grammar, Rule, Symbol, place_of};

// A rule, and the symbols beside one of its right side.
#[derive(Clone, Copy)]
pub(crate) struct Cut<'g> {
    pub(crate) rule: &'g Rule,
    pub(crate) before: &'g [Symbol],
    pub(crate) behind: &'g [Symbol],
}

// The three rules of a chain.
#[derive(Clone, Copy)]
pub(crate) struct Rules<'g> {
    pub(crate) outer: Cut<'g>,
    pub(crate) middle: Cut<'g>,
    pub(crate) inner: &'g Rule,
}

// Rule `number`, cut at a place where rule `inner` may be applied.
fn cut_at<'g>(grammar: &'g Grammar, number: u16, place: u16, inner: u16) -> Cut<'g>
    requires { IsOccurrence grammar.now number place inner }
    ensures cut { IsCutAt grammar.now number place inner result }
    ensures fits { FitsCut grammar.now result }
{
    let rule = grammar.rule(number);
    let right = rule.right();
    Cut {
        rule,
        before: &right[..place_of(place)],
        behind: &right[place as usize..],
    }
}

pub(crate) fn rules_of<'g>(grammar: &'g Grammar, chain: &Chain) -> Rules<'g>
    requires { IsChain grammar.now chain.now }
    ensures rules { AreRulesOf grammar.now chain.now result }
    ensures fits { FitsRules grammar.now result }
{
    Rules {
        outer: cut_at(grammar, chain.outer, chain.place, chain.middle),
        middle: cut_at(grammar, chain.middle, chain.spot, chain.inner),
        inner: grammar.rule(chain.inner),
    }
}
