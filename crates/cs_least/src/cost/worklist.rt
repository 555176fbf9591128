// The costs of trees by a worklist: nonterminals are settled in the order of their least sizes (Knuth 1977, "A
// generalization of Dijkstra's algorithm").

ghost use Rattle.std.specs.Prelude.{◌≡◌, ◌≤◌, OnOk, IfOk, All, length};
ghost use Rattle.cs_grammar.specs.Grammar.{IsSymbol};
ghost use Rattle.cs_least.specs.declared.cost.cost.Cost.TheVariants.{Never};
ghost use Rattle.cs_least.specs.Cost.Rank.{IsCapped, entry};
ghost use Rattle.cs_least.specs.Cost.Trees.{IsSound, IsClosed};
ghost use Rattle.cs_least.specs.Cost.Worklist.{nonterminals_in, AreCounts};
ghost use Rattle.cs_least.specs.Cost.Searching.{AreRules, IsReady, IsBeforeOffers, HasTaken, to_do, Offers, HasSound, HasClosed};

use crate::cost::cost::{Cost, cost_of, rank};
use crate::cost::sums::node_cost;
use crate::cost::users::users_of;
use cs_grammar::{Grammar, Rule, Symbol, Weights, place_of};
use std::alloc::{AllocError, Global};
use std::cmp::Reverse;
use std::collections::BinaryHeap;

// What stays the same while costs are found: a grammar, weights, and for each nonterminal the rules in which it stands.
#[derive(Debug, Drop)]
struct Rules<'g> {
    grammar: &'g Grammar,
    weights: &'g Weights,
    users: Vec<Vec<u16>>,
}

// What the settled nonterminals cost; how many nonterminals of each rule aren't settled; and the candidates, each a size
// and a nonterminal that has a tree of at most that size, the least first.
#[derive(Debug, Drop)]
struct Worklist {
    table: Vec<Cost>,
    unsettled: Vec<u16>,
    heap: BinaryHeap<Reverse<(u32, u16)>>,
}

fn nonterminals_in(symbols: &[Symbol]) -> u16
    requires { length symbols.now ≤ 128 }
    ensures { result ≡ nonterminals_in symbols.now }
{
    let mut count = 0;
    for symbol in symbols {
        if let Symbol::Nonterminal(_) = *symbol {
            count += 1;
        }
    }
    count
}

// How many nonterminals each rule has.
fn counts_of(alloc: Global, grammar: &Grammar) -> Result<Vec<u16>, AllocError>
    ensures { IfOk result (λ counts. AreCounts grammar.now counts.items) }
{
    let mut counts = Vec::with_capacity(alloc, grammar.rules().len())?;
    for rule in grammar.rules() {
        counts.push(nonterminals_in(rule.right()))?;
    }
    Ok(counts)
}

// Puts a node of a rule, all of whose nonterminals are settled, among the candidates.
fn offer(
    weights: &Weights,
    table: &[Cost],
    rule: &Rule,
    heap: &mut BinaryHeap<Reverse<(u32, u16)>>,
) -> Result<(), AllocError>
    requires table { All (IsCapped weights.now.limit) table.now }
    requires right { All (IsSymbol (length weights.now.numbers) (length table.now)) rule.now.right }
    ensures { OnOk result (Offers weights.now table.now rule.now heap.old heap.new) }
{
    let cost = node_cost(weights, table, rule.right());
    let size = rank(cost, weights.limit());
    heap.push(Reverse((size, rule.left())))?;
    Ok(())
}

// The first candidates: nodes of rules that have no nonterminals.
fn offer_first(rules: &Rules, work: &mut Worklist) -> Result<(), AllocError>
    requires rules { AreRules rules.now }
    requires start { IsBeforeOffers rules.now work.old }
    ensures { OnOk result (IsReady rules.now work.new 0) }
{
    for (place, rule) in rules.grammar.rules().iter().enumerate() {
        if work.unsettled[place] == 0 {
            offer(rules.weights, &work.table, rule, &mut work.heap)?;
        }
    }
    Ok(())
}

// Settles a nonterminal, and tells the rules in which it stands.
fn settle(rules: &Rules, work: &mut Worklist, size: u32, number: u16) -> Result<(), AllocError>
    requires rules { AreRules rules.now }
    requires taken { HasTaken rules.now work.old size number }
    requires open { entry work.old.table.items number ≡ Never }
    ensures ready { OnOk result (IsReady rules.now work.new size) }
    ensures falls { OnOk result (to_do work.new ≤ to_do work.old) }
{
    let at = place_of(number);
    work.table[at] = cost_of(size, rules.weights.limit());
    for place in &rules.users[at] {
        let place = *place as usize;
        let left = work.unsettled[place] - 1;
        work.unsettled[place] = left;
        if left == 0 {
            let rule = &rules.grammar.rules()[place];
            offer(rules.weights, &work.table, rule, &mut work.heap)?;
        }
    }
    Ok(())
}

// Settles nonterminals until no candidate is left.
fn settle_all(rules: &Rules, work: &mut Worklist) -> Result<(), AllocError>
    requires rules { AreRules rules.now }
    requires ready { IsReady rules.now work.old 0 }
    ensures sound { OnOk result (HasSound rules.now work.new) }
    ensures closed { OnOk result (HasClosed rules.now work.new) }
{
    while let Some(candidate) = work.heap.pop() {
        let Reverse((size, number)) = candidate;
        if let Cost::Never = work.table[place_of(number)] {
            settle(rules, work, size, number)?;
        }
    }
    Ok(())
}

// The table in which no step is left.
pub(crate) fn settled(
    alloc: Global,
    grammar: &Grammar,
    weights: &Weights,
) -> Result<Vec<Cost>, AllocError>
    requires { length weights.now.numbers ≡ grammar.now.tokens }
    ensures sound { IfOk result (λ table. IsSound weights.now grammar.now table.items) }
    ensures closed { IfOk result (λ table. IsClosed weights.now grammar.now table.items) }
{
    let _limit = weights.limit();
    let _rules = grammar.rules();
    let users = users_of(alloc, grammar)?;
    let rules = Rules {
        grammar,
        weights,
        users,
    };
    let mut work = Worklist {
        table: vec![in alloc; Cost::Never; grammar.nonterminals() as usize]?,
        unsettled: counts_of(alloc, grammar)?,
        heap: BinaryHeap::new(alloc),
    };
    offer_first(&rules, &mut work)?;
    settle_all(&rules, &mut work)?;
    let Worklist { table, .. } = work;
    Ok(table)
}
