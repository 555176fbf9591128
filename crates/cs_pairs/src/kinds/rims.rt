// The steps of rims: from a child that has a token at a side of its yield to its node.

ghost use Rattle.std.specs.Prelude.{◌≡◌, ◌+◌, ◌≤◌, IfOk, OnOk, length, All};
ghost use Rattle.cs_grammar.specs.Grammar.{IsNumberOf, IsSymbol, IsSymbolOf};
ghost use Rattle.cs_least.specs.Cost.Rank.{IsCapped};
ghost use Rattle.cs_pairs.specs.Kinds.Numbers.{symbol_number};
ghost use Rattle.cs_pairs.specs.Kinds.Sides.{before_on, behind_on};
ghost use Rattle.cs_pairs.specs.Kinds.KindCost.{IsKindCost, AreKindCost};
ghost use Rattle.cs_pairs.specs.Kinds.RimsOf.{IsBesideCostOf, IsStepCost, AreRimsUpTo, AreRimsOf};

use crate::kinds::kind::TreeKind;
use crate::kinds::side::Side;
use cs_grammar::{Symbol, Weights, number_of, place_of};
use cs_least::{Cost, Costs, Step};
use std::alloc::{AllocError, Global};
use std::marker::Model;

// What any trees cost, and what those of empty yield do.
#[derive(Debug, Drop)]
pub(crate) struct Bases<'a, 'g> {
    pub(crate) costs: &'a Costs<'g>,
    pub(crate) empty: &'a [Cost],
}

impl<'a, 'g> Model for Bases<'a, 'g> {
    ghost use Rattle.cs_grammar.specs.Weights.{Weighed};
    ghost use Rattle.cs_pairs.specs.declared.kinds.kind.TreeKind.TheVariants.{Empty};
    ghost use Rattle.cs_pairs.specs.Kinds.Tables.{AreCosts};

    ghost Value = { Weighed };

    ghost view = { λ b. b.costs.now };

    ghost invariant = { λ b. AreCosts b.costs.now.weights b.costs.now.grammar Empty b.empty.now };
}

fn empty_cost(bases: &Bases, symbol: Symbol) -> Cost
    requires { IsSymbolOf bases.now.grammar symbol }
    ensures { IsKindCost bases.now TreeKind.Empty symbol result }
{
    match symbol {
        Symbol::Token(_) => Cost::Never,
        Symbol::Nonterminal(number) => bases.empty[place_of(number)],
    }
}

// What trees of these symbols cost whose yields are empty.
pub(crate) fn empty_sum(bases: &Bases, symbols: &[Symbol]) -> Cost
    requires { All (IsSymbolOf bases.now.grammar) symbols.now }
    ensures cost { AreKindCost bases.now TreeKind.Empty symbols.now result }
    ensures capped { IsCapped bases.now.weights.limit result }
{
    let mut sum = Cost::Least(0);
    for place in (0..symbols.len()).rev() {
        sum = bases.costs.plus(empty_cost(bases, symbols[place]), sum);
    }
    sum
}

// What trees of these symbols cost.
pub(crate) fn any_sum(bases: &Bases, symbols: &[Symbol]) -> Cost
    requires { All (IsSymbolOf bases.now.grammar) symbols.now }
    ensures cost { AreKindCost bases.now TreeKind.Any symbols.now result }
    ensures capped { IsCapped bases.now.weights.limit result }
{
    bases.costs.sum(symbols)
}

fn before_cost(bases: &Bases, side: Side, symbols: &[Symbol]) -> Cost
    requires { All (IsSymbolOf bases.now.grammar) symbols.now }
    ensures cost { AreKindCost bases.now (before_on side) symbols.now result }
    ensures capped { IsCapped bases.now.weights.limit result }
{
    match side {
        Side::First => empty_sum(bases, symbols),
        Side::Last => any_sum(bases, symbols),
    }
}

fn behind_cost(bases: &Bases, side: Side, symbols: &[Symbol]) -> Cost
    requires { All (IsSymbolOf bases.now.grammar) symbols.now }
    ensures cost { AreKindCost bases.now (behind_on side) symbols.now result }
    ensures capped { IsCapped bases.now.weights.limit result }
{
    match side {
        Side::First => any_sum(bases, symbols),
        Side::Last => empty_sum(bases, symbols),
    }
}

// What a node costs with the trees beside a child that has a token at the side itself.
fn beside_cost(bases: &Bases, side: Side, before: &[Symbol], behind: &[Symbol]) -> Cost
    requires before { All (IsSymbolOf bases.now.grammar) before.now }
    requires behind { All (IsSymbolOf bases.now.grammar) behind.now }
    ensures cost { IsBesideCostOf bases.now side before.now behind.now result }
    ensures capped { IsCapped bases.now.weights.limit result }
{
    let first = before_cost(bases, side, before);
    let last = behind_cost(bases, side, behind);
    bases
        .costs
        .plus(bases.costs.node(), bases.costs.plus(first, last))
}

/// A cost as that of a step or a source of ways, if there is one: one more than the limit of the weights for `Large`.
pub fn step_cost(weights: &Weights, cost: Cost) -> Option<u32>
    requires { IsCapped weights.now.limit cost }
    ensures { IsStepCost weights.now.limit cost result }
{
    match cost {
        Cost::Never => None,
        Cost::Large => Some(weights.limit() + 1),
        Cost::Least(size) => Some(size),
    }
}

/// The number of a symbol among all, tokens first.
pub fn symbol_number(tokens: u16, symbol: Symbol) -> u16
    requires tokens { tokens ≤ 512 }
    requires symbol { IsSymbol 512 1024 symbol }
    ensures { result ≡ symbol_number tokens symbol }
{
    match symbol {
        Symbol::Token(token) => token,
        Symbol::Nonterminal(number) => tokens + number,
    }
}

// Appends the steps of a rule, in the order of their places.
fn push_rims(
    bases: &Bases,
    side: Side,
    number: u16,
    steps: &mut Vec<Step>,
) -> Result<(), AllocError>
    requires number { IsNumberOf (length bases.now.grammar.rules) number }
    requires steps { AreRimsUpTo bases.now side number steps.old }
    ensures { OnOk result (AreRimsUpTo bases.now side (number + 1) steps.new) }
{
    let grammar = bases.costs.grammar();
    let _rules = grammar.rules();
    let rule = grammar.rule(number);
    let right = rule.right();
    let to = symbol_number(grammar.tokens(), Symbol::Nonterminal(rule.left()));
    for (place, symbol) in right.iter().enumerate() {
        let others = beside_cost(bases, side, &right[..place], &right[place + 1..]);
        if let Some(cost) = step_cost(bases.costs.weights(), others) {
            let from = symbol_number(grammar.tokens(), *symbol);
            steps.push(Step { from, to, cost })?;
        }
    }
    Ok(())
}

// The steps of a side, in the order of their rules and places. Symbols are numbered in one, tokens first.
pub(crate) fn all_rims(alloc: Global, bases: &Bases, side: Side) -> Result<Vec<Step>, AllocError>
    ensures { IfOk result (AreRimsOf bases.now side) }
{
    let mut steps = Vec::new(alloc);
    for place in 0..bases.costs.grammar().rules().len() {
        push_rims(bases, side, number_of(place), &mut steps)?;
    }
    Ok(steps)
}
