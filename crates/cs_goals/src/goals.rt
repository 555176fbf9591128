// The goals of a grammar, one after another.

ghost use Rattle.std.specs.Prelude.{◌≡◌, ◌≤◌, [], ◌∷◌, IfSome, IfNone};
ghost use Rattle.cs_goals.specs.Goals.{goals};
ghost use Rattle.cs_goals.specs.Rest.{left_mark, rules_left, contexts_at, pairs_at, Gives};

use crate::goal::Goal;
use crate::occurrence::{ContextIndex, next_occurrence};
use cs_choices::Criteria;
use cs_grammar::{Grammar, Mark, number_of};
use std::marker::Model;

/// The goals that are still to be given: rule goals by number, then context goals by outer rule, place and inner rule,
/// then pair goals by left and right mark, where the begin mark comes before all tokens and the end mark behind them.
#[derive(Debug, Drop)]
pub struct Goals<'g> {
    grammar: &'g Grammar,
    rules: usize,
    contexts: ContextIndex,
    pairs: GivenPairs,
}

// How many left marks, and how many right marks with the next of them, were given.
#[derive(Clone, Copy, Debug)]
struct GivenPairs {
    left: u16,
    right: u16,
}

impl<'g> Model for Goals<'g> {
    ghost use Rattle.std.specs.Prelude.{List, ◌++◌, ◌≤◌};
    ghost use Rattle.cs_goals.specs.declared.goal.Goal.{Goal};
    ghost use Rattle.cs_goals.specs.Rest.{rules_left, contexts_left, pairs_left};

    ghost Value = { List Goal };

    ghost view = { λ s. rules_left s.grammar.now s.rules
        ++ contexts_left s.grammar.now s.contexts.outer s.contexts.place s.contexts.inner
        ++ pairs_left s.grammar.now.tokens s.pairs.left s.pairs.right };

    ghost invariant = { λ s. s.pairs.right ≤ s.grammar.now.tokens };
}

impl<'g> Goals<'g> {
    /// The goals of the chosen criteria.
    pub fn new(grammar: &'g Grammar, criteria: Criteria) -> Goals<'g>
        ensures { result ≡ goals grammar.now criteria }
    {
        // A criterion that isn't chosen begins at the end of its list.
        let last = grammar.rules().len();
        Goals {
            grammar,
            rules: if criteria.rule { 0 } else { last },
            contexts: ContextIndex {
                outer: if criteria.cdrc { 0 } else { last },
                place: 0,
                inner: 0,
            },
            pairs: GivenPairs {
                left: if criteria.pair {
                    0
                } else {
                    grammar.tokens() + 1
                },
                right: 0,
            },
        }
    }

    /// The same goals, which may be taken away without taking these away.
    pub fn copied(&self) -> Goals<'g>
        ensures { result ≡ self.now }
    {
        Goals {
            grammar: self.grammar,
            rules: self.rules,
            contexts: self.contexts,
            pairs: self.pairs,
        }
    }

    /// Takes the first goal away. None where there is none, and then there is none from then on.
    pub fn next(&mut self) -> Option<Goal>
        ensures some { IfSome result (λ goal. self.old ≡ goal ∷ self.new) }
        ensures none { IfNone result ((self.old ≡ []) × (self.new ≡ [])) }
    {
        if let Some(goal) = next_rule(self.grammar, &mut self.rules) {
            return Some(goal);
        }
        if let Some(goal) = next_context(self.grammar, &mut self.contexts) {
            return Some(goal);
        }
        next_pair(self.grammar, &mut self.pairs)
    }
}

fn next_rule(grammar: &Grammar, given: &mut usize) -> Option<Goal>
    ensures { Gives (rules_left grammar.now given.old) (rules_left grammar.now given.new) result }
{
    if *given < grammar.rules().len() {
        *given += 1;
        Some(Goal::Rule(*given as u16))
    } else {
        None
    }
}

fn next_context(grammar: &Grammar, given: &mut ContextIndex) -> Option<Goal>
    ensures { Gives (contexts_at grammar.now given.old) (contexts_at grammar.now given.new) result }
{
    match next_occurrence(grammar, *given) {
        Some(found) => {
            given.outer = found.outer;
            given.place = found.place;
            given.inner = found.inner + 1;
            Some(Goal::Context {
                outer: number_of(found.outer),
                place: number_of(found.place),
                inner: number_of(found.inner),
            })
        }
        None => {
            // The next call needs no search.
            given.outer = grammar.rules().len();
            None
        }
    }
}

// The left mark that comes after so many.
fn left_mark(given: u16) -> Mark
    ensures { result ≡ left_mark given }
{
    if given == 0 {
        Mark::Begin
    } else {
        Mark::Token(given)
    }
}

fn next_pair(grammar: &Grammar, given: &mut GivenPairs) -> Option<Goal>
    requires { given.old.right ≤ grammar.now.tokens }
    ensures goal { Gives (pairs_at grammar.now given.old) (pairs_at grammar.now given.new) result }
    ensures right { given.new.right ≤ grammar.now.tokens }
{
    let _well_formed = grammar.rules();
    let tokens = grammar.tokens();
    if tokens < given.left {
        return None;
    }
    let left = left_mark(given.left);
    if given.right < tokens {
        given.right += 1;
        Some(Goal::Pair {
            left,
            right: Mark::Token(given.right),
        })
    } else {
        given.left += 1;
        given.right = 0;
        Some(Goal::Pair {
            left,
            right: Mark::End,
        })
    }
}
