// What the least tree of each symbol of a grammar costs.

ghost use Rattle.std.specs.Prelude.{◌≡◌, IfOk, OnOk, OnErr, All, length};
ghost use Rattle.cs_grammar.specs.Grammar.{IsSymbolOf};
ghost use Rattle.cs_grammar.specs.Weights.{Weighs, weighed};
ghost use Rattle.cs_least.specs.Cost.Rank.{IsCapped, cost_of, plus};
ghost use Rattle.cs_least.specs.Cost.Chosen.{WritesChosen, WritesAllChosen};
ghost use Rattle.cs_least.specs.Cost.Trees.{IsTreeCost, AreTreesCost, HasLeast, HaveSmall};

use crate::cost::cost::{Cost, cost_of, plus};
use crate::cost::sums::{cost_in, sum_from};
use crate::cost::trees::{Trees, trees_of};
use crate::cost::writing::write;
use cs_grammar::{Derivation, Grammar, Symbol, Weights};
use std::alloc::{AllocError, Global};
use std::marker::Model;

/// What the least tree of each symbol of a grammar costs by some weights, and which tree is chosen.
#[derive(Debug, Drop)]
pub struct Costs<'g> {
    trees: Trees<'g>,
}

impl<'g> Model for Costs<'g> {
    ghost use Rattle.cs_grammar.specs.Weights.{Weighed, weighed};

    ghost Value = { Weighed };

    ghost view = { λ c. weighed c.trees.grammar c.trees.weights };
}

impl<'g> Costs<'g> {
    /// The costs of a grammar's symbols by weights that have a number for each token.
    pub fn new(
        alloc: Global,
        grammar: &'g Grammar,
        weights: &'g Weights,
    ) -> Result<Costs<'g>, AllocError>
        requires { length weights.now.numbers ≡ grammar.now.tokens }
        ensures { IfOk result (λ costs. costs ≡ weighed grammar.now weights.now) }
    {
        let trees = trees_of(alloc, grammar, weights)?;
        Ok(Costs { trees })
    }

    /// The grammar that these are the costs of.
    pub fn grammar(&self) -> &'g Grammar
        ensures { result.now ≡ self.now.grammar }
    {
        self.trees.grammar
    }

    /// The weights that these are the costs by.
    pub fn weights(&self) -> &'g Weights
        ensures weights { result.now ≡ self.now.weights }
        ensures weighs { Weighs self.now.weights self.now.grammar }
    {
        self.trees.weights
    }

    /// What the least tree of a symbol costs: `Never` where it has none, `Large` where each of its trees is larger than the
    /// limit, else the least size. A token's tree is a leaf, whose size is the token's number.
    pub fn cost(&self, symbol: Symbol) -> Cost
        requires { IsSymbolOf self.now.grammar symbol }
        ensures { IsTreeCost self.now symbol result }
    {
        let trees = &self.trees;
        cost_in(trees.weights, &trees.table, symbol)
    }

    /// What the least trees of symbols cost together, one of each: as `cost` answers, of the sum of their sizes.
    pub fn sum(&self, symbols: &[Symbol]) -> Cost
        requires { All (IsSymbolOf self.now.grammar) symbols.now }
        ensures { AreTreesCost self.now symbols.now result }
    {
        let trees = &self.trees;
        let _rules = trees.grammar.rules();
        sum_from(trees.weights, &trees.table, Cost::Least(0), symbols)
    }

    /// Costs together, by the limit of the weights.
    pub fn plus(&self, a: Cost, b: Cost) -> Cost
        requires a { IsCapped self.now.weights.limit a }
        requires b { IsCapped self.now.weights.limit b }
        ensures cost { result ≡ plus self.now.weights.limit a b }
        ensures capped { IsCapped self.now.weights.limit result }
    {
        plus(a, b, self.trees.weights.limit())
    }

    /// What a node alone costs.
    pub fn node(&self) -> Cost
        ensures cost { result ≡ cost_of self.now.weights.limit 1 }
        ensures capped { IsCapped self.now.weights.limit result }
    {
        cost_of(1, self.trees.weights.limit())
    }

    /// Appends the code of the chosen tree of a symbol, whose cost is a size. After a refusal `into` is unchanged.
    pub fn least_into(&self, symbol: Symbol, into: &mut Derivation) -> Result<(), AllocError>
        requires symbol { IsSymbolOf self.now.grammar symbol }
        requires least { HasLeast self.now.weights self.now.grammar symbol }
        ensures ok { OnOk result (WritesChosen self.now symbol into.old into.new) }
        ensures err { OnErr result (into.new ≡ into.old) }
    {
        write(&self.trees, &[symbol], into)
    }

    /// Appends the codes of the chosen trees of symbols, in their order, where some trees of them are together within the
    /// limit. After a refusal `into` is unchanged.
    pub fn all_into(&self, symbols: &[Symbol], into: &mut Derivation) -> Result<(), AllocError>
        requires symbols { All (IsSymbolOf self.now.grammar) symbols.now }
        requires small { HaveSmall self.now.weights self.now.grammar symbols.now }
        ensures ok { OnOk result (WritesAllChosen self.now symbols.now into.old into.new) }
        ensures err { OnErr result (into.new ≡ into.old) }
    {
        write(&self.trees, symbols, into)
    }
}
