// Grammars, by their rules.

ghost use Rattle.std.specs.Prelude.{◌≡◌, IfOk};

use crate::error::SampleError;
use cs_grammar::{Grammar, Rule, Symbol};
use std::alloc::{AllocError, Global};

/// Rules, as their left and right sides.
pub type Lines = &'static [(u16, &'static [Symbol])];

/// The rules of these left sides and right sides.
pub fn rules(alloc: Global, lines: &[(u16, &[Symbol])]) -> Result<Vec<Rule>, AllocError> {
    let mut rules = Vec::new(alloc);
    for (left, right) in lines {
        rules.push(Rule::new(*left, right.to_vec(alloc)?))?;
    }
    Ok(rules)
}

/// The rules of `e : e '+' t | t ;  t : NUM | '(' e ')' ;`, with NUM 1, '+' 2, '(' 3, ')' 4, e 1, t 2.
pub fn sums(alloc: Global) -> Result<Vec<Rule>, AllocError> {
    let e = Symbol::Nonterminal(1);
    let t = Symbol::Nonterminal(2);
    let [num, plus, opening, closing] = [1, 2, 3, 4].map(Symbol::Token);
    rules(
        alloc,
        &[
            (1, &[e, plus, t]),
            (1, &[t]),
            (2, &[num]),
            (2, &[opening, e, closing]),
        ],
    )
}

/// The grammar of these rules with the start symbol 1.
pub fn grammar_of(tokens: u16, nonterminals: u16, rules: Vec<Rule>) -> Result<Grammar, SampleError>
    ensures tokens { IfOk result (λ grammar. grammar.tokens ≡ tokens) }
    ensures nonterminals { IfOk result (λ grammar. grammar.nonterminals ≡ nonterminals) }
{
    if !Grammar::fits(tokens, nonterminals, 1, &rules) {
        return Err(SampleError::Grammar);
    }
    Ok(Grammar::new(tokens, nonterminals, 1, rules))
}

/// The grammar of sums.
pub fn grammar_of_sums(alloc: Global) -> Result<Grammar, SampleError>
    ensures { IfOk result (λ grammar. grammar.tokens ≡ 4) }
{
    grammar_of(4, 2, sums(alloc)?)
}
