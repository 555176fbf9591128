// The tables that verdicts come from.

ghost use Rattle.std.specs.Prelude.{◌≡◌, IfOk, length};

use cs_grammar::{Grammar, Weights};
use cs_least::{Costs, Embeds};
use cs_pairs::Pairs;
use std::alloc::{AllocError, Global};
use std::marker::Model;

/// What the least trees and the least contexts of a grammar cost by some weights, and what its pairs of neighbours do.
#[derive(Debug, Drop)]
pub struct Tables<'g> {
    pub(crate) pairs: Pairs<'g>,
}

impl<'g> Model for Tables<'g> {
    ghost use Rattle.cs_grammar.specs.Weights.{Weighed};

    ghost Value = { Weighed };

    ghost view = { λ t. t.pairs };
}

impl<'g> Tables<'g> {
    /// The tables of a grammar by weights that have a number for each token.
    pub fn new(
        alloc: Global,
        grammar: &'g Grammar,
        weights: &'g Weights,
    ) -> Result<Tables<'g>, AllocError>
        requires { length weights.now.numbers ≡ grammar.now.tokens }
        ensures { IfOk result (λ tables.
            tables ≡ record { grammar = grammar.now; weights = weights.now }) }
    {
        let costs = Costs::new(alloc, grammar, weights)?;
        let embeds = Embeds::new(alloc, costs)?;
        let pairs = Pairs::new(alloc, embeds)?;
        Ok(Tables { pairs })
    }

    /// The grammar that these are the tables of.
    pub fn grammar(&self) -> &'g Grammar
        ensures { result.now ≡ self.now.grammar }
    {
        self.pairs.grammar()
    }

    /// What the least trees of its symbols cost, and which trees are chosen.
    pub fn costs(&self) -> &Costs<'g>
        ensures { result.now ≡ self.now }
    {
        self.pairs.costs()
    }

    /// What the least contexts of its nonterminals cost, and which contexts are chosen.
    pub fn embeds(&self) -> &Embeds<'g>
        ensures { result.now ≡ self.now }
    {
        self.pairs.embeds()
    }

    /// Which marks may stand side by side, and what the least trees cost that show it.
    pub fn pairs(&self) -> &Pairs<'g>
        ensures { result.now ≡ self.now }
    {
        &self.pairs
    }
}
