// The steps of a grammar's contexts, as steps of ways: each leads inwards, from a rule's left side to a nonterminal of its
// right side, and costs what the node there and the other children do.

ghost use Rattle.std.specs.Prelude.{◌≡◌, ◌+◌, ◌<◌, ◌≤◌, IfOk, OnOk, length, All};
ghost use Rattle.cs_grammar.specs.Grammar.{IsNumberOf, IsSymbolOf};
ghost use Rattle.cs_least.specs.Cost.Rank.{IsCapped};
ghost use Rattle.cs_least.specs.Embed.Ways.{inward_beside, siblings_cost};
ghost use Rattle.cs_least.specs.Embed.Kept.{AreRestCosts, AreInwardsBefore, AreInwardsOf};

use crate::cost::{Cost, Costs};
use crate::ways::Step;
use cs_grammar::{Symbol, number_of};
use std::alloc::{AllocError, Global};

// Room for the costs behind as many symbols is made at once.
const USUAL_SYMBOLS: usize = 16;

/// Where a symbol stands: at a place, from 0, of the right side of a rule, by its number from 1.
#[derive(Clone, Copy, Debug)]
pub struct RulePlace {
    pub rule: u16,
    pub place: u16,
}

// The steps of a grammar, in the order of their rules and places, and the place to which each leads.
#[derive(Debug, Drop)]
pub(crate) struct Inwards {
    pub(crate) places: Vec<RulePlace>,
    pub(crate) steps: Vec<Step>,
}

// Puts into a list what the least trees of the symbols from each place of another on cost together.
fn put_rest_costs(costs: &Costs, symbols: &[Symbol], rest: &mut Vec<Cost>) -> Result<(), AllocError>
    requires short { length symbols.now ≤ 128 }
    requires symbols { All (IsSymbolOf costs.now.grammar) symbols.now }
    ensures { OnOk result (AreRestCosts costs.now symbols.now rest.new.items) }
{
    rest.clear();
    rest.resize(symbols.len() + 1, Cost::Least(0))?;
    for place in (0..symbols.len()).rev() {
        rest[place] = costs.plus(costs.cost(symbols[place]), rest[place + 1]);
    }
    Ok(())
}

// What a node costs with the least trees before one of its children and behind it, which cost this.
fn siblings_cost(costs: &Costs, before: Cost, behind: Cost) -> Cost
    requires before { IsCapped costs.now.weights.limit before }
    requires behind { IsCapped costs.now.weights.limit behind }
    ensures cost { result ≡ siblings_cost costs.now.weights.limit before behind }
    ensures capped { IsCapped costs.now.weights.limit result }
{
    costs.plus(costs.node(), costs.plus(before, behind))
}

// The step from a left side to a symbol, if that is a nonterminal, and if there are trees beside it, of which the least before
// it and behind it cost this.
fn inward(costs: &Costs, left: u16, inner: Symbol, before: Cost, behind: Cost) -> Option<Step>
    requires before { IsCapped costs.now.weights.limit before }
    requires behind { IsCapped costs.now.weights.limit behind }
    ensures { result ≡ inward_beside costs.now.weights.limit left inner before behind }
{
    let Symbol::Nonterminal(to) = inner else {
        return None;
    };
    match siblings_cost(costs, before, behind) {
        Cost::Never => None,
        Cost::Large => Some(Step {
            from: left,
            to,
            cost: costs.weights().limit() + 1,
        }),
        Cost::Least(cost) => Some(Step {
            from: left,
            to,
            cost,
        }),
    }
}

// Appends the steps of a rule, in the order of their places. What is behind each place is put into `rest`, which is lent.
fn push_inwards(
    costs: &Costs,
    number: u16,
    rest: &mut Vec<Cost>,
    inwards: &mut Inwards,
) -> Result<(), AllocError>
    requires number { IsNumberOf (length costs.now.grammar.rules) number }
    requires inwards { AreInwardsBefore costs.now number inwards.old }
    ensures { OnOk result (AreInwardsBefore costs.now (number + 1) inwards.new) }
{
    let rule = costs.grammar().rule(number);
    let right = rule.right();
    put_rest_costs(costs, right, rest)?;
    let mut before = Cost::Least(0);
    for (place, symbol) in right.iter().enumerate() {
        let found = inward(costs, rule.left(), *symbol, before, rest[place + 1]);
        before = costs.plus(before, costs.cost(*symbol));
        if let Some(step) = found {
            inwards.places.push(RulePlace {
                rule: number,
                place: place as u16,
            })?;
            inwards.steps.push(step)?;
        }
    }
    Ok(())
}

pub(crate) fn all_inwards(alloc: Global, costs: &Costs) -> Result<Inwards, AllocError>
    ensures { IfOk result (AreInwardsOf costs.now) }
{
    let count = costs.grammar().rules().len();
    let places = Vec::with_capacity(alloc, count)?;
    let steps = Vec::with_capacity(alloc, count)?;
    let mut inwards = Inwards { places, steps };
    let mut rest = Vec::with_capacity(alloc, USUAL_SYMBOLS)?;
    for place in 0..count {
        push_inwards(costs, number_of(place), &mut rest, &mut inwards)?;
    }
    Ok(inwards)
}
