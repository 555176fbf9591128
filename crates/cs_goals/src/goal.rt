// Goals of coverage, and which of them a grammar has.

ghost use Rattle.std.specs.Prelude.{◌↔◌, IsTrue};
ghost use Rattle.cs_goals.specs.Goal.{HasOccurrence, IsGoal, IsLeft, IsRight};

use cs_grammar::{Grammar, Mark, Symbol, place_of};

/// What a derivation tree is to show. Rules and places are counted from 1.
#[derive(Clone, Copy, Debug, PartialEq, Eq)]
pub enum Goal {
    /// A node has this rule.
    Rule(u16),
    /// A node with the rule `outer` has a node with the rule `inner` as its child at `place`.
    Context { outer: u16, place: u16, inner: u16 },
    /// In the framed yield `left` is directly followed by `right`.
    Pair { left: Mark, right: Mark },
}

/// A use of a rule: a node with the rule `outer` has a node with the rule `inner` as its child at `place`. Rules and places
/// are counted from 1.
#[derive(Clone, Copy, Debug, PartialEq, Eq)]
pub struct Occurrence {
    pub outer: u16,
    pub place: u16,
    pub inner: u16,
}

/// Whether the goal is one of the grammar's: a rule goal of one of its rules, a context goal of a nonterminal at a place
/// of one of its rules and a rule of that nonterminal, a pair goal of the begin mark or a token, and a token or the end
/// mark.
pub fn fits_goal(grammar: &Grammar, goal: &Goal) -> bool
    ensures { IsTrue result ↔ IsGoal grammar.now goal.now }
{
    match *goal {
        Goal::Rule(rule) => grammar.get_rule(rule).is_some(),
        Goal::Context {
            outer,
            place,
            inner,
        } => fits_occurrence(
            grammar,
            Occurrence {
                outer,
                place,
                inner,
            },
        ),
        Goal::Pair { left, right } => {
            fits_left(grammar.tokens(), left) && fits_right(grammar.tokens(), right)
        }
    }
}

fn fits_occurrence(grammar: &Grammar, occurrence: Occurrence) -> bool
    ensures { IsTrue result ↔ HasOccurrence grammar.now occurrence }
{
    let Some(outer) = grammar.get_rule(occurrence.outer) else {
        return false;
    };
    let Some(inner) = grammar.get_rule(occurrence.inner) else {
        return false;
    };
    if occurrence.place == 0 {
        return false;
    }
    match outer.right().get(place_of(occurrence.place)) {
        Some(Symbol::Nonterminal(nonterminal)) => *nonterminal == inner.left(),
        _ => false,
    }
}

fn fits_left(tokens: u16, mark: Mark) -> bool
    ensures { IsTrue result ↔ IsLeft tokens mark }
{
    match mark {
        Mark::Begin => true,
        Mark::Token(token) => 0 < token && token <= tokens,
        Mark::End => false,
    }
}

fn fits_right(tokens: u16, mark: Mark) -> bool
    ensures { IsTrue result ↔ IsRight tokens mark }
{
    match mark {
        Mark::Begin => false,
        Mark::Token(token) => 0 < token && token <= tokens,
        Mark::End => true,
    }
}
