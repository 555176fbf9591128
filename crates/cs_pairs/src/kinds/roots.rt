// The rule at the root of a chosen tree of a kind, and where in its right side the kind itself goes on.

ghost use Rattle.std.specs.Prelude.{◌≡◌, ◌+◌, ◌<◌, ◌∷◌, [], All, length};
ghost use Rattle.cs_grammar.specs.Grammar.{IsNumberOf, IsSymbolOf};
ghost use Rattle.cs_least.specs.Cost.Rank.{IsCapped};
ghost use Rattle.cs_pairs.specs.Kinds.Tables.{AreCosts};
ghost use Rattle.cs_pairs.specs.Kinds.Clauses.{HasSmallIn};
ghost use Rattle.cs_pairs.specs.Kinds.Beside.{AreRowsBeside, HasPlaced, IsPlacedOver, IsPlacedIn, TellsDear, TellsAbove, IsPlaceWithin, IsRootIn};

use crate::kinds::kind::TreeKind;
use crate::kinds::kinds::{KindRows, Kinds};
use crate::kinds::rows::bare_cost;
use cs_grammar::Symbol;
use cs_least::Cost;

// What trees of the swept symbols cost, as in `Sweep`, and where the tree of the kind itself stands in the chosen ones; behind all
// where there is none.
#[derive(Clone, Copy, Debug)]
pub(crate) struct Placed {
    pub(crate) whole: Cost,
    pub(crate) rest: Cost,
    pub(crate) place: usize,
}

// A rule, and where in its right side the tree of the kind itself stands.
#[derive(Clone, Copy, Debug)]
pub(crate) struct Root {
    pub(crate) number: u16,
    pub(crate) place: usize,
}

// One symbol more in front of those that are swept. It has the index.
#[inline(always)]
fn placed_over(
    kinds: &Kinds,
    rows: &KindRows,
    placed: Placed,
    symbol: Symbol,
    index: usize,
) -> Placed
    requires rows { AreRowsBeside kinds.now rows.now }
    requires symbol { IsSymbolOf kinds.now.grammar symbol }
    requires placed { HasPlaced kinds.now rows.now.kind (index + 1) placed }
    ensures { IsPlacedOver kinds.now rows.now.kind index placed symbol result }
{
    let own = kinds.told_by(rows.own, rows.kind, symbol);
    let before = kinds.told_by(rows.before, rows.kind.before(), symbol);
    let behind = kinds.told_by(rows.behind, rows.kind.behind(), symbol);
    let here = kinds.plus(own, placed.rest);
    let later = kinds.plus(before, placed.whole);
    let rest = kinds.plus(behind, placed.rest);
    if kinds.at_most(here, later) {
        Placed {
            whole: here,
            rest,
            place: index,
        }
    } else {
        Placed {
            whole: later,
            rest,
            place: placed.place,
        }
    }
}

// One symbol alone: its tree is of the kind itself.
#[inline(always)]
fn placed_alone(kinds: &Kinds, rows: &KindRows, symbol: Symbol) -> Placed
    requires rows { AreRowsBeside kinds.now rows.now }
    requires symbol { IsSymbolOf kinds.now.grammar symbol }
    ensures { IsPlacedIn kinds.now rows.now.kind (symbol ∷ []) result }
{
    Placed {
        whole: kinds.told_by(rows.own, rows.kind, symbol),
        rest: kinds.told_by(rows.behind, rows.kind.behind(), symbol),
        place: 0,
    }
}

// All symbols. Most often there is one.
#[inline(always)]
pub(crate) fn placed_in(kinds: &Kinds, rows: &KindRows, symbols: &[Symbol]) -> Placed
    requires rows { AreRowsBeside kinds.now rows.now }
    requires symbols { All (IsSymbolOf kinds.now.grammar) symbols.now }
    ensures { IsPlacedIn kinds.now rows.now.kind symbols.now result }
{
    if symbols.len() == 1 {
        placed_alone(kinds, rows, symbols[0])
    } else {
        placed_among(kinds, rows, symbols)
    }
}

// All symbols, swept from the last to the first.
#[inline(never)]
fn placed_among(kinds: &Kinds, rows: &KindRows, symbols: &[Symbol]) -> Placed
    requires rows { AreRowsBeside kinds.now rows.now }
    requires symbols { All (IsSymbolOf kinds.now.grammar) symbols.now }
    ensures { IsPlacedIn kinds.now rows.now.kind symbols.now result }
{
    let mut placed = Placed {
        whole: bare_cost(rows.kind),
        rest: bare_cost(rows.kind.behind()),
        place: symbols.len(),
    };
    for index in (0..symbols.len()).rev() {
        placed = placed_over(kinds, rows, placed, symbols[index], index);
    }
    placed
}

// Whether each tree of a symbol that is of the kind or of one beside it costs as much as this, or more.
#[inline(always)]
fn is_dear(
    kinds: &Kinds,
    rows: &KindRows,
    row: &[Cost],
    kind: TreeKind,
    symbol: Symbol,
    cost: Cost,
) -> bool
    requires rows { AreRowsBeside kinds.now rows.now }
    requires row { AreCosts kinds.now.weights kinds.now.grammar kind row.now }
    requires symbol { IsSymbolOf kinds.now.grammar symbol }
    requires cost { IsCapped kinds.now.weights.limit cost }
    ensures { TellsDear kinds.now rows.now.kind kind symbol cost result }
{
    kinds.at_most(cost, kinds.told_by(rows.own, rows.kind, symbol))
        && kinds.at_most(cost, kinds.told_by(row, kind, symbol))
}

// Whether a symbol at the rim tells that each node above trees of the symbols costs more than this: that where the token of the
// kind stands.
fn rim_is_dear(kinds: &Kinds, rows: &KindRows, symbols: &[Symbol], cost: Cost) -> bool
    requires rows { AreRowsBeside kinds.now rows.now }
    requires symbols { All (IsSymbolOf kinds.now.grammar) symbols.now }
    requires cost { IsCapped kinds.now.weights.limit cost }
    ensures { TellsAbove kinds.now rows.now.kind symbols.now cost result }
{
    if symbols.is_empty() {
        return false;
    }
    let kind = rows.kind;
    match kind {
        TreeKind::Ends(_) => {
            let last = symbols[symbols.len() - 1];
            is_dear(kinds, rows, rows.behind, kind.behind(), last, cost)
        }
        _ => is_dear(kinds, rows, rows.before, kind.before(), symbols[0], cost),
    }
}

// The place of the tree of the kind itself in the chosen trees of a right side, where a node above such trees costs no more
// than this.
fn place_within(kinds: &Kinds, rows: &KindRows, right: &[Symbol], cost: Cost) -> Option<usize>
    requires rows { AreRowsBeside kinds.now rows.now }
    requires right { All (IsSymbolOf kinds.now.grammar) right.now }
    requires cost { IsCapped kinds.now.weights.limit cost }
    ensures { IsPlaceWithin kinds.now rows.now.kind right.now cost result }
{
    if rim_is_dear(kinds, rows, right, cost) {
        return None;
    }
    let placed = placed_in(kinds, rows, right);
    if kinds.at_most(kinds.plus(kinds.one(), placed.whole), cost) {
        Some(placed.place)
    } else {
        None
    }
}

// The root of the chosen tree of a kind and a nonterminal.
#[inline(never)]
pub(crate) fn root_of(kinds: &Kinds, rows: &KindRows, left: u16) -> Root
    requires rows { AreRowsBeside kinds.now rows.now }
    requires left { IsNumberOf kinds.now.grammar.nonterminals left }
    requires small { HasSmallIn kinds.now rows.now.kind (Symbol.Nonterminal left) }
    ensures { IsRootIn kinds.now rows.now.kind left result }
{
    let cost = kinds.told_by(rows.own, rows.kind, Symbol::Nonterminal(left));
    for number in kinds.rules_with(left) {
        let right = kinds.grammar().rule(*number).right();
        if let Some(place) = place_within(kinds, rows, right, cost) {
            return Root {
                number: *number,
                place,
            };
        }
    }
    unreachable!()
}
