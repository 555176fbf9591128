// Rules and lists of rules, made before anything is asked of them.

ghost use Rattle.std.specs.Prelude.{◌≡◌, IfOk, length};
ghost use Rattle.cs_grammar.specs.Weights.{weighed};

use cs_grammar::{Derivation, Grammar, Rule, Symbol, Weights};
use cs_least::{Costs, Embeds};
use cs_pairs::Pairs;
use std::alloc::{AllocError, Global};

/// n1 : n2 ;  down to  n1024 : 'x' ;  in this order, or backwards.
pub(crate) fn chain(alloc: Global, backwards: bool) -> Result<Vec<Rule>, AllocError> {
    let mut rules = Vec::new(alloc);
    for place in 0..1024 {
        let number = if backwards { 1024 - place } else { place + 1 };
        let symbol = if number == 1024 {
            Symbol::Token(1)
        } else {
            Symbol::Nonterminal(number + 1)
        };
        rules.push(Rule::new(number, [symbol].to_vec(alloc)?))?;
    }
    Ok(rules)
}

/// A list of rules.
pub(crate) fn derivation_of(alloc: Global, code: &[u16]) -> Result<Derivation, AllocError>
    ensures { IfOk result (λ derivation. derivation ≡ code.now) }
{
    let mut derivation = Derivation::new(alloc);
    derivation.extend_from_slice(code)?;
    Ok(derivation)
}

/// What the least contexts of a grammar's nonterminals cost.
pub(crate) fn embeds_of<'g>(
    alloc: Global,
    grammar: &'g Grammar,
    weights: &'g Weights,
) -> Result<Embeds<'g>, AllocError>
    requires { length weights.now.numbers ≡ grammar.now.tokens }
    ensures { IfOk result (λ embeds. embeds ≡ weighed grammar.now weights.now) }
{
    Embeds::new(alloc, Costs::new(alloc, grammar, weights)?)
}

/// The pairs of a grammar.
pub(crate) fn pairs_of<'g>(
    alloc: Global,
    grammar: &'g Grammar,
    weights: &'g Weights,
) -> Result<Pairs<'g>, AllocError>
    requires { length weights.now.numbers ≡ grammar.now.tokens }
    ensures { IfOk result (λ pairs. pairs ≡ weighed grammar.now weights.now) }
{
    Pairs::new(alloc, embeds_of(alloc, grammar, weights)?)
}
