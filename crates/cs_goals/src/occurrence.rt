// The occurrences of nonterminals in right sides, with the rules that may be applied there.

ghost use Rattle.std.specs.Prelude.{ℕ};
ghost use Rattle.cs_goals.specs.Rest.{IsNextRule, IsNextPlace, IsNextContext};

use cs_grammar::{Grammar, Rule, Symbol};

// A context goal's place in the list of them, each number counted from 0.
#[derive(Clone, Copy, Debug)]
pub(crate) struct ContextIndex {
    pub(crate) outer: usize,
    pub(crate) place: usize,
    pub(crate) inner: usize,
}

// The first rule of a left side from a place of the rules on.
fn next_rule_of(rules: &[Rule], left: u16, from: usize) -> Option<usize>
    ensures { IsNextRule rules.now left from result }
{
    for at in from..rules.len() {
        if rules[at].left() == left {
            return Some(at);
        }
    }
    None
}

/// The first context goal of a rule from a place of its right side on, there from a place of the rules on: both places, each
/// counted from 0.
pub fn next_in(grammar: &Grammar, rule: &Rule, place: usize, inner: usize) -> Option<(usize, usize)>
    ensures { (p : ℕ) → IsNextPlace grammar.now p rule.now place inner result }
{
    let mut from = inner;
    for at in place..rule.right().len() {
        if let Symbol::Nonterminal(left) = rule.right()[at] {
            if let Some(found) = next_rule_of(grammar.rules(), left, from) {
                return Some((at, found));
            }
        }
        from = 0;
    }
    None
}

// The first context goal from a place in the list of them on.
pub(crate) fn next_occurrence(grammar: &Grammar, from: ContextIndex) -> Option<ContextIndex>
    ensures { IsNextContext grammar.now from result }
{
    let mut start = from;
    for outer in from.outer..grammar.rules().len() {
        if let Some((place, inner)) = next_in(
            grammar,
            &grammar.rules()[outer],
            start.place,
            start.inner,
        ) {
            return Some(ContextIndex {
                outer,
                place,
                inner,
            });
        }
        start.place = 0;
        start.inner = 0;
    }
    None
}
