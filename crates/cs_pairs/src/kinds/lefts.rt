// The rules of each left side.

ghost use Rattle.std.specs.Prelude.{IfOk};
ghost use Rattle.cs_pairs.specs.Kinds.Lefts.{HasNoLefts, AreLefts};

use cs_grammar::{Grammar, number_of, place_of};
use std::alloc::{AllocError, Global};

// Empty lists, so many.
fn no_lefts(alloc: Global, nonterminals: u16) -> Result<Vec<Vec<u16>>, AllocError>
    ensures { IfOk result (λ lefts. HasNoLefts nonterminals lefts.items) }
{
    let mut lefts = Vec::new(alloc);
    for _ in 0..nonterminals {
        lefts.push(Vec::new(alloc))?;
    }
    Ok(lefts)
}

// For each nonterminal the numbers of its rules, in ascending order.
pub(crate) fn lefts_of(alloc: Global, grammar: &Grammar) -> Result<Vec<Vec<u16>>, AllocError>
    ensures { IfOk result (λ lefts. AreLefts grammar.now lefts.items) }
{
    let mut lefts = no_lefts(alloc, grammar.nonterminals())?;
    for (place, rule) in grammar.rules().iter().enumerate() {
        lefts[place_of(rule.left())].push(number_of(place))?;
    }
    Ok(lefts)
}
