// Names of symbols and marks, and what is wanted of verdicts.

use cs_grammar::{Mark, Symbol};
use cs_verdicts::Verdict;

pub(crate) const A: Symbol = Symbol::Nonterminal(2);

pub(crate) const X: Symbol = Symbol::Token(1);

pub(crate) const Y: Symbol = Symbol::Token(2);

pub(crate) const Z: Symbol = Symbol::Token(3);

pub(crate) const FIRST: Mark = Mark::Token(1);

pub(crate) const SECOND: Mark = Mark::Token(2);

pub(crate) const THIRD: Mark = Mark::Token(3);

pub(crate) const FOURTH: Mark = Mark::Token(4);

/// What is to be told of a goal.
#[derive(Clone, Copy)]
pub(crate) enum Want {
    Code(u32, &'static [u16]),
    OfSize(u32),
    Nowhere,
    TooLarge,
}

/// Whether a verdict is the wanted one.
pub(crate) fn is_wanted(verdict: &Verdict, want: Want) -> bool {
    match (verdict, want) {
        (Verdict::Feasible { size, derivation }, Want::Code(least, code)) => {
            *size == least && derivation.rules() == code
        }
        (Verdict::Feasible { size, .. }, Want::OfSize(least)) => *size == least,
        (Verdict::Infeasible, Want::Nowhere) | (Verdict::Large, Want::TooLarge) => true,
        _ => false,
    }
}
