// What symbols cost by a table of nonterminals, alone and together.

ghost use Rattle.std.specs.Prelude.{◌≡◌, length, All};
ghost use Rattle.cs_grammar.specs.Grammar.{IsSymbol};
ghost use Rattle.cs_least.specs.Cost.Rank.{IsCapped};
ghost use Rattle.cs_least.specs.Cost.Trees.{cost_in, symbols_cost, node_cost};

use crate::cost::cost::{Cost, cost_of, plus};
use cs_grammar::{Symbol, Weights, place_of};

pub(crate) fn cost_in(weights: &Weights, table: &[Cost], symbol: Symbol) -> Cost
    requires { IsSymbol (length weights.now.numbers) (length table.now) symbol }
    ensures { result ≡ cost_in weights.now table.now symbol }
{
    match symbol {
        Symbol::Token(token) => cost_of(weights.number(token), weights.limit()),
        Symbol::Nonterminal(number) => table[place_of(number)],
    }
}

pub(crate) fn sum_from(weights: &Weights, table: &[Cost], start: Cost, symbols: &[Symbol]) -> Cost
    requires table { All (IsCapped weights.now.limit) table.now }
    requires start { IsCapped weights.now.limit start }
    requires symbols { All (IsSymbol (length weights.now.numbers) (length table.now)) symbols.now }
    ensures cost { result ≡ symbols_cost weights.now table.now start symbols.now }
    ensures capped { IsCapped weights.now.limit result }
{
    let limit = weights.limit();
    let mut sum = start;
    for symbol in symbols {
        sum = plus(sum, cost_in(weights, table, *symbol), limit);
    }
    sum
}

// A node above trees of these symbols.
pub(crate) fn node_cost(weights: &Weights, table: &[Cost], right: &[Symbol]) -> Cost
    requires table { All (IsCapped weights.now.limit) table.now }
    requires right { All (IsSymbol (length weights.now.numbers) (length table.now)) right.now }
    ensures cost { result ≡ node_cost weights.now table.now right.now }
    ensures capped { IsCapped weights.now.limit result }
{
    sum_from(weights, table, cost_of(1, weights.limit()), right)
}
