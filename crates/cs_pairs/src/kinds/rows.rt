// What leaves and no trees at all cost.

ghost use Rattle.std.specs.Prelude.{◌≡◌, length};
ghost use Rattle.cs_grammar.specs.Grammar.{IsNumberOf};
ghost use Rattle.cs_least.specs.Cost.Rank.{IsCapped};
ghost use Rattle.cs_pairs.specs.Kinds.ListCost.{leaf_cost, bare_cost};

use crate::kinds::kind::TreeKind;
use cs_grammar::Weights;
use cs_least::{Cost, cost_of};

// What no tree at all costs.
pub(crate) fn bare_cost(kind: TreeKind) -> Cost
    ensures { result ≡ bare_cost kind }
{
    match kind {
        TreeKind::Any | TreeKind::Empty => Cost::Least(0),
        TreeKind::Begins(_) | TreeKind::Ends(_) => Cost::Never,
    }
}

// What the leaf of a token costs.
fn token_cost(weights: &Weights, token: u16) -> Cost
    requires { IsNumberOf (length weights.now.numbers) token }
    ensures cost { result ≡ leaf_cost weights.now TreeKind.Any token }
    ensures capped { IsCapped weights.now.limit result }
{
    cost_of(weights.number(token), weights.limit())
}

pub(crate) fn leaf_cost(weights: &Weights, kind: TreeKind, token: u16) -> Cost
    requires { IsNumberOf (length weights.now.numbers) token }
    ensures cost { result ≡ leaf_cost weights.now kind token }
    ensures capped { IsCapped weights.now.limit result }
{
    match kind {
        TreeKind::Any => token_cost(weights, token),
        TreeKind::Empty => Cost::Never,
        TreeKind::Begins(only) | TreeKind::Ends(only) => {
            if token == only {
                token_cost(weights, token)
            } else {
                Cost::Never
            }
        }
    }
}
