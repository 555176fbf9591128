// What the least tree of each nonterminal costs, and the rule at the root of each chosen tree.

ghost use Rattle.std.specs.Prelude.{◌≡◌, ◌↔◌, IsTrue, IfOk, length, All};
ghost use Rattle.cs_grammar.specs.Grammar.{IsNumberOf, IsSymbol};
ghost use Rattle.cs_least.specs.Cost.Rank.{IsCapped};
ghost use Rattle.cs_least.specs.Cost.Trees.{IsCostTable, IsFirstSoFar, AreFirstRules};

use crate::cost::cost::{Cost, is_below};
use crate::cost::sums::node_cost;
use crate::cost::worklist::settled;
use cs_grammar::{Grammar, Symbol, Weights, number_of, place_of};
use std::alloc::{AllocError, Global};
use std::marker::Model;

// What the least tree of each nonterminal costs.
fn cost_table(alloc: Global, grammar: &Grammar, weights: &Weights) -> Result<Vec<Cost>, AllocError>
    requires { length weights.now.numbers ≡ grammar.now.tokens }
    ensures { IfOk result (λ table. IsCostTable weights.now grammar.now table.items) }
{
    let _rules = grammar.rules();
    let _limit = weights.limit();
    let table = settled(alloc, grammar, weights)?;
    Ok(table)
}

// Whether a rule costs no more than the table says of its left side, and no rule of the left side is known so far.
fn is_first(
    weights: &Weights,
    table: &[Cost],
    firsts: &[Option<u16>],
    left: u16,
    right: &[Symbol],
) -> bool
    requires table { All (IsCapped weights.now.limit) table.now }
    requires firsts { length firsts.now ≡ length table.now }
    requires left { IsNumberOf (length table.now) left }
    requires right { All (IsSymbol (length weights.now.numbers) (length table.now)) right.now }
    ensures { IsTrue result ↔ IsFirstSoFar weights.now table.now firsts.now left right.now }
{
    let place = place_of(left);
    firsts[place].is_none() && !is_below(table[place], node_cost(weights, table, right))
}

// The rule at the root of the chosen tree of each nonterminal that has one within the limit.
fn first_rules(
    alloc: Global,
    grammar: &Grammar,
    weights: &Weights,
    table: &[Cost],
) -> Result<Vec<Option<u16>>, AllocError>
    requires { IsCostTable weights.now grammar.now table.now }
    ensures { IfOk result (λ firsts. AreFirstRules weights.now grammar.now table.now firsts.items) }
{
    let mut firsts = vec![in alloc; None; grammar.nonterminals() as usize]?;
    for (place, rule) in grammar.rules().iter().enumerate() {
        let left = rule.left();
        if is_first(weights, table, &firsts, left, rule.right()) {
            firsts[place_of(left)] = Some(number_of(place));
        }
    }
    Ok(firsts)
}

// What the least trees of a grammar cost, and the rules at the roots of the chosen ones.
#[derive(Debug, Drop)]
pub(crate) struct Trees<'g> {
    pub(crate) grammar: &'g Grammar,
    pub(crate) weights: &'g Weights,
    pub(crate) table: Vec<Cost>,
    pub(crate) firsts: Vec<Option<u16>>,
}

impl<'g> Model for Trees<'g> {
    ghost use Rattle.cs_least.specs.Cost.Tables.{Kept, kept_of, HasTables};

    ghost Value = { Kept };

    ghost view = { λ t. kept_of t.grammar.now t.weights.now t.table.items t.firsts.items };

    ghost invariant = { λ t. HasTables (kept_of t.grammar.now t.weights.now t.table.items t.firsts.items) };
}

pub(crate) fn trees_of<'g>(
    alloc: Global,
    grammar: &'g Grammar,
    weights: &'g Weights,
) -> Result<Trees<'g>, AllocError>
    requires { length weights.now.numbers ≡ grammar.now.tokens }
    ensures grammar { IfOk result (λ trees. trees.grammar ≡ grammar.now) }
    ensures weights { IfOk result (λ trees. trees.weights ≡ weights.now) }
{
    let table = cost_table(alloc, grammar, weights)?;
    let firsts = first_rules(alloc, grammar, weights, &table)?;
    Ok(Trees {
        grammar,
        weights,
        table,
        firsts,
    })
}
