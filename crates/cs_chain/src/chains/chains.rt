// The chains of a grammar, one after another.

ghost use Rattle.std.specs.Prelude.{◌≡◌, [], ◌∷◌, IfSome, IfNone};
ghost use Rattle.cs_chain.specs.Chains.Chain.{IsBeside};
ghost use Rattle.cs_chain.specs.Chains.Chains.{chains};
ghost use Rattle.cs_chain.specs.Chains.Rest.{GivesNext, GivesUnder, IsKept, IsOpen, Opens};

use crate::chains::chain::{Chain, is_beside};
use cs_choices::Criteria;
use cs_goals::{Goal, Goals, next_in};
use cs_grammar::{Grammar, Rule, number_of};
use std::marker::Model;

/// The chains that are still to be given: by the context goal of the outer rule, then by that of the middle rule.
#[derive(Debug, Drop)]
pub struct Chains<'g> {
    grammar: &'g Grammar,
    contexts: Goals<'g>,
    opened: Option<Open<'g>>,
}

// A context goal whose chains are being given: its numbers, the rule of the inner one, and how many places of that rule's right
// side, and rules at the next of them, were passed.
#[derive(Clone, Copy, Debug)]
struct Open<'g> {
    outer: u16,
    place: u16,
    middle: u16,
    rule: &'g Rule,
    spot: usize,
    inner: usize,
}

impl<'g> Model for Chains<'g> {
    ghost use Rattle.std.specs.Prelude.{List};
    ghost use Rattle.cs_chain.specs.declared.chains.chain.Chain.{Chain};
    ghost use Rattle.cs_chain.specs.Chains.Rest.{chains_left, IsKept};

    ghost Value = { List Chain };

    ghost view = { λ s. chains_left s.grammar.now s.opened s.contexts };

    ghost invariant = { λ s. IsKept s.grammar.now s.opened s.contexts };
}

impl<'g> Chains<'g> {
    /// The chains of a grammar.
    pub fn new(grammar: &'g Grammar) -> Chains<'g>
        ensures { result ≡ chains grammar.now }
    {
        let mut contexts = Goals::new(
            grammar,
            Criteria {
                rule: false,
                cdrc: true,
                pair: false,
            },
        );
        let opened = next_open(grammar, &mut contexts);
        Chains {
            grammar,
            contexts,
            opened,
        }
    }

    /// Takes the first chain away. None where there is none, and then there is none from then on.
    pub fn next(&mut self) -> Option<Chain>
        ensures some { IfSome result (λ chain. self.old ≡ chain ∷ self.new) }
        ensures none { IfNone result ((self.old ≡ []) × (self.new ≡ [])) }
    {
        next_chain(self.grammar, &mut self.contexts, &mut self.opened)
    }

    /// Takes the first chain away where it differs from this one in the inner rule alone, and begins with the context goal that
    /// the last chain taken began with. None where it doesn't, and then it is left.
    pub fn next_beside(&mut self, chain: &Chain) -> Option<Chain>
        ensures some { IfSome result (λ next. self.old ≡ next ∷ self.new) }
        ensures beside { IfSome result (IsBeside chain.now) }
        ensures none { IfNone result (self.new ≡ self.old) }
    {
        let last = self.opened?;
        let (next, behind) = next_under(self.grammar, last)?;
        if !is_beside(chain, &next) {
            return None;
        }
        self.opened = Some(behind);
        Some(next)
    }
}

// Opens the next context goal.
fn next_open<'g>(grammar: &'g Grammar, contexts: &mut Goals<'g>) -> Option<Open<'g>>
    ensures opens { Opens grammar.now contexts.old contexts.new result }
    ensures kept { IsKept grammar.now result contexts.new }
{
    while let Some(goal) = contexts.next() {
        if let Goal::Context {
            outer,
            place,
            inner,
        } = goal
        {
            if let Some(rule) = grammar.get_rule(inner) {
                return Some(Open {
                    outer,
                    place,
                    middle: inner,
                    rule,
                    spot: 0,
                    inner: 0,
                });
            }
        }
    }
    None
}

// The first chain of an open context goal, and what is open behind it.
fn next_under<'g>(grammar: &'g Grammar, opened: Open<'g>) -> Option<(Chain, Open<'g>)>
    requires { IsOpen grammar.now opened }
    ensures chain { GivesUnder grammar.now opened.entry result }
    ensures kept { IfSome result (λ found. IsOpen grammar.now found.1) }
{
    let _well_formed = grammar.rules();
    let (at, found) = next_in(grammar, opened.rule, opened.spot, opened.inner)?;
    let chain = Chain {
        outer: opened.outer,
        place: opened.place,
        middle: opened.middle,
        spot: number_of(at),
        inner: number_of(found),
    };
    let behind = Open {
        outer: opened.outer,
        place: opened.place,
        middle: opened.middle,
        rule: opened.rule,
        spot: at,
        inner: found + 1,
    };
    Some((chain, behind))
}

fn next_chain<'g>(
    grammar: &'g Grammar,
    contexts: &mut Goals<'g>,
    opened: &mut Option<Open<'g>>,
) -> Option<Chain>
    requires { IsKept grammar.now opened.old contexts.old }
    ensures chain { GivesNext grammar.now opened.old contexts.old opened.new contexts.new result }
    ensures kept { IsKept grammar.now opened.new contexts.new }
{
    while let Some(last) = *opened {
        if let Some((chain, behind)) = next_under(grammar, last) {
            *opened = Some(behind);
            return Some(chain);
        }
        *opened = next_open(grammar, contexts);
    }
    None
}
