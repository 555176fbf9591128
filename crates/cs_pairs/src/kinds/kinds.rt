// What the least trees of each kind and symbol cost.

ghost use Rattle.std.specs.Prelude.{◌≡◌, ◌↔◌, IsTrue, IfOk};
ghost use Rattle.cs_grammar.specs.Grammar.{IsNumberOf, IsSymbolOf};
ghost use Rattle.cs_grammar.specs.Weights.{Weighs};
ghost use Rattle.cs_least.specs.Cost.Rank.{IsCapped, cost_of, plus};
ghost use Rattle.cs_pairs.specs.Kinds.ListCost.{IsAtMost, lesser};
ghost use Rattle.cs_pairs.specs.Kinds.Kinds.{IsKind};
ghost use Rattle.cs_pairs.specs.Kinds.RowsOf.{AreTablesOf};
ghost use Rattle.cs_pairs.specs.Kinds.Beside.{AreRowsBeside};
ghost use Rattle.cs_pairs.specs.Kinds.Tables.{AreCosts};
ghost use Rattle.cs_pairs.specs.Kinds.KindCost.{IsKindCost};
ghost use Rattle.cs_pairs.specs.Kinds.Known.{AreKnownIn};
ghost use Rattle.cs_pairs.specs.Kinds.Lefts.{AreLefts, AreRulesWith};
ghost use Rattle.cs_pairs.specs.Kinds.Nets.{AreStepsToEnds};

use crate::kinds::empties::empty_row;
use crate::kinds::kind::TreeKind;
use crate::kinds::known::{KnownRoot, known_roots};
use crate::kinds::lefts::lefts_of;
use crate::kinds::nets::{net_of, token_rows};
use crate::kinds::rims::Bases;
use crate::kinds::row::Row;
use crate::kinds::rows::leaf_cost;
use crate::kinds::side::Side;
use cs_grammar::{Grammar, Symbol, Weights, place_of};
use cs_least::{Cost, Costs, Embeds, Steps, cost_of, is_below, plus, turned};
use std::alloc::{AllocError, Global};
use std::marker::Model;

/// What the least trees of each kind and symbol of a grammar cost, by some weights, the rules of each nonterminal, and roots of
/// chosen trees that were found ahead, over the least contexts and the least trees of any kind.
#[derive(Debug, Drop)]
pub struct Kinds<'g> {
    embeds: Embeds<'g>,
    rows: Rows,
    lefts: Vec<Vec<u16>>,
    known: Vec<Option<KnownRoot>>,
}

// What the least trees of each nonterminal cost that are of a kind, of the kind before it, and of the kind behind it.
#[derive(Clone, Copy, Debug)]
pub(crate) struct KindRows<'k> {
    pub(crate) kind: TreeKind,
    pub(crate) own: &'k [Cost],
    pub(crate) before: &'k [Cost],
    pub(crate) behind: &'k [Cost],
}

// What they cost of any trees, of those of empty yield, and of those that begin or end with each token.
#[derive(Debug, Drop)]
struct Rows {
    any: Row,
    empty: Row,
    begins: Vec<Row>,
    ends: Vec<Row>,
}

impl<'g> Model for Kinds<'g> {
    ghost use Rattle.cs_grammar.specs.Weights.{Weighed};
    ghost use Rattle.cs_pairs.specs.Kinds.RowsOf.{AreKindsOf};

    ghost Value = { Weighed };

    ghost view = { λ k. k.embeds };

    ghost invariant = { λ k. AreKindsOf k.embeds k.rows k.lefts.items k.known.items };
}

impl<'g> Kinds<'g> {
    /// The kinds of trees of a grammar, whose trees and contexts cost this. The costs are kept with them.
    pub fn new(alloc: Global, embeds: Embeds<'g>) -> Result<Kinds<'g>, AllocError>
        ensures { IfOk result (λ kinds. kinds ≡ embeds.entry) }
    {
        let rows = rows_of(alloc, embeds.costs())?;
        let lefts = lefts_of(alloc, embeds.grammar())?;
        let mut kinds = Kinds {
            embeds,
            rows,
            lefts,
            known: Vec::new(alloc),
        };
        let known = known_roots(alloc, &kinds)?;
        kinds.known = known;
        Ok(kinds)
    }

    /// The grammar that these are the kinds of trees of.
    pub fn grammar(&self) -> &'g Grammar
        ensures { result.now ≡ self.now.grammar }
    {
        self.embeds.grammar()
    }

    /// What the least contexts cost, and which contexts are chosen.
    pub fn embeds(&self) -> &Embeds<'g>
        ensures { result.now ≡ self.now }
    {
        &self.embeds
    }

    /// What the least trees of any kind cost, and which trees are chosen.
    pub fn costs(&self) -> &Costs<'g>
        ensures { result.now ≡ self.now }
    {
        self.embeds.costs()
    }

    // The lower of two costs, the first where they are as low. Both are capped by the limit of the weights.
    pub(crate) fn lesser(&self, a: Cost, b: Cost) -> Cost
        requires a { IsCapped self.now.weights.limit a }
        requires b { IsCapped self.now.weights.limit b }
        ensures cost { result ≡ lesser self.now.weights.limit a b }
        ensures capped { IsCapped self.now.weights.limit result }
    {
        if is_below(b, a) { b } else { a }
    }

    // Whether a cost is no higher than another.
    pub(crate) fn at_most(&self, a: Cost, b: Cost) -> bool
        requires a { IsCapped self.now.weights.limit a }
        requires b { IsCapped self.now.weights.limit b }
        ensures { IsTrue result ↔ IsAtMost self.now.weights.limit a b }
    {
        !is_below(b, a)
    }

    /// Costs together: `Large` where they are above the limit of the weights.
    pub fn plus(&self, a: Cost, b: Cost) -> Cost
        requires a { IsCapped self.now.weights.limit a }
        requires b { IsCapped self.now.weights.limit b }
        ensures { result ≡ plus self.now.weights.limit a b }
    {
        plus(a, b, self.weights().limit())
    }

    // The numbers of the rules of a nonterminal, in ascending order.
    pub(crate) fn rules_with(&self, left: u16) -> &[u16]
        requires { IsNumberOf self.now.grammar.nonterminals left }
        ensures { AreRulesWith self.now.grammar left result.now }
    {
        &self.lefts[place_of(left)]
    }

    // Roots of chosen trees that were found ahead.
    #[inline(always)]
    pub(crate) fn known(&self) -> &[Option<KnownRoot>]
        ensures { AreKnownIn self.now result.now }
    {
        &self.known
    }

    /// The weights by which trees are measured here.
    pub fn weights(&self) -> &'g Weights
        ensures weights { result.now ≡ self.now.weights }
        ensures weighs { Weighs self.now.weights self.now.grammar }
    {
        self.costs().weights()
    }

    /// The steps inwards from each node of a tree that ends with a token to its child that does so too, between all symbols of
    /// the grammar: a step leads from a rule's left side to a symbol of its right side behind which all can be empty, and costs
    /// the node and the least trees beside the child.
    pub fn steps_to_ends(&self, alloc: Global) -> Result<Steps, AllocError>
        ensures { IfOk result (AreStepsToEnds self.now) }
    {
        let bases = Bases {
            costs: self.costs(),
            empty: self.row(TreeKind::Empty),
        };
        let net = net_of(alloc, &bases, Side::Last)?;
        turned(alloc, &net.steps)
    }

    // What a node alone costs.
    pub(crate) fn one(&self) -> Cost
        ensures { result ≡ cost_of self.now.weights.limit 1 }
    {
        cost_of(1, self.weights().limit())
    }

    // Above this size no tree is written out.
    pub(crate) fn limit(&self) -> u32
        ensures limit { result ≡ self.now.weights.limit }
        ensures weighs { Weighs self.now.weights self.now.grammar }
    {
        self.weights().limit()
    }

    /// What the least tree of a kind and a symbol costs: `Never` where there is none, `Large` where each is larger than the
    /// limit of the weights, else the least size. The kind and the symbol are of the grammar.
    #[inline(always)]
    pub fn told(&self, kind: TreeKind, symbol: Symbol) -> Cost
        requires kind { IsKind self.now.grammar.tokens kind }
        requires symbol { IsSymbolOf self.now.grammar symbol }
        ensures { IsKindCost self.now kind symbol result }
    {
        self.told_by(self.row(kind), kind, symbol)
    }

    // What the least tree of a kind and a symbol costs, by the row of the kind.
    #[inline(always)]
    pub(crate) fn told_by(&self, row: &[Cost], kind: TreeKind, symbol: Symbol) -> Cost
        requires row { AreCosts self.now.weights self.now.grammar kind row.now }
        requires symbol { IsSymbolOf self.now.grammar symbol }
        ensures { IsKindCost self.now kind symbol result }
    {
        match symbol {
            Symbol::Token(token) => leaf_cost(self.weights(), kind, token),
            Symbol::Nonterminal(number) => row[place_of(number)],
        }
    }

    // The rows of a kind and of those beside it.
    #[inline(always)]
    pub(crate) fn rows_beside(&self, kind: TreeKind) -> KindRows<'_>
        requires { IsKind self.now.grammar.tokens kind }
        ensures kind { result.kind ≡ kind }
        ensures rows { AreRowsBeside self.now result }
    {
        KindRows {
            kind,
            own: self.row(kind),
            before: self.row(kind.before()),
            behind: self.row(kind.behind()),
        }
    }

    // The row of a kind.
    #[inline(always)]
    fn row(&self, kind: TreeKind) -> &[Cost]
        requires { IsKind self.now.grammar.tokens kind }
        ensures { AreCosts self.now.weights self.now.grammar kind result.now }
    {
        match kind {
            TreeKind::Any => self.rows.any.costs(),
            TreeKind::Empty => self.rows.empty.costs(),
            TreeKind::Begins(token) => self.rows.begins[place_of(token)].costs(),
            TreeKind::Ends(token) => self.rows.ends[place_of(token)].costs(),
        }
    }
}

// The rows of all kinds.
fn rows_of(alloc: Global, costs: &Costs) -> Result<Rows, AllocError>
    ensures { IfOk result (AreTablesOf costs.now.weights costs.now.grammar) }
{
    let _weights = costs.weights();
    let any = any_row(alloc, costs)?;
    let empty = empty_row(alloc, costs)?;
    let bases = Bases {
        costs,
        empty: empty.costs(),
    };
    let begins = token_rows(alloc, costs, &net_of(alloc, &bases, Side::First)?)?;
    let ends = token_rows(alloc, costs, &net_of(alloc, &bases, Side::Last)?)?;
    Ok(Rows {
        any,
        empty,
        begins,
        ends,
    })
}

// What any trees cost, as `Costs` says.
pub(crate) fn any_row(alloc: Global, costs: &Costs) -> Result<Row, AllocError>
    ensures { IfOk result (λ row. AreCosts costs.now.weights costs.now.grammar TreeKind.Any row) }
{
    let mut row = Vec::new(alloc);
    let _rules = costs.grammar().rules();
    for place in 0..costs.grammar().nonterminals() {
        row.push(costs.cost(Symbol::Nonterminal(place + 1)))?;
    }
    Ok(Row::new(row))
}
