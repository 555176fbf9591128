// Chains of three rules, and which of them a grammar has.

ghost use Rattle.std.specs.Prelude.{◌↔◌, IsTrue};
ghost use Rattle.cs_chain.specs.Chains.Chain.{IsBeside, IsChain};

use cs_goals::{Goal, fits_goal};
use cs_grammar::Grammar;

/// What a derivation tree is to show: a node with the rule `outer` has a node with the rule `middle` as its child at `place`,
/// which has a node with the rule `inner` as its child at `spot`. Rules and places are counted from 1.
#[derive(Clone, Copy, Debug, PartialEq, Eq)]
pub struct Chain {
    pub outer: u16,
    pub place: u16,
    pub middle: u16,
    pub spot: u16,
    pub inner: u16,
}

/// Whether the chain is one of the grammar's: the middle rule may be applied at the place of the outer one, and the inner rule
/// at the spot of the middle one.
pub fn fits_chain(grammar: &Grammar, chain: &Chain) -> bool
    ensures { IsTrue result ↔ IsChain grammar.now chain.now }
{
    let upper = Goal::Context {
        outer: chain.outer,
        place: chain.place,
        inner: chain.middle,
    };
    let lower = Goal::Context {
        outer: chain.middle,
        place: chain.spot,
        inner: chain.inner,
    };
    fits_goal(grammar, &upper) && fits_goal(grammar, &lower)
}

/// Whether the second chain differs from the first in the inner rule alone, if at all.
pub fn is_beside(chain: &Chain, other: &Chain) -> bool
    ensures { IsTrue result ↔ IsBeside chain.now other.now }
{
    chain.outer == other.outer
        && chain.place == other.place
        && chain.middle == other.middle
        && chain.spot == other.spot
}
