// What rule goals and context goals share: costs together, by the limit of the weights, and the room of a derivation.

ghost use Rattle.std.specs.Prelude.{◌≡◌};
ghost use Rattle.cs_least.specs.Cost.Rank.{IsCapped};
ghost use Rattle.cs_verdicts.specs.Positive.Sums.{node_cost};

use cs_least::{Cost, Costs};

// Room for as many rule numbers of a derivation is made at once.
pub(crate) const USUAL_RULES: usize = 32;

// A node above its children.
pub(crate) fn node_cost(costs: &Costs, children: Cost) -> Cost
    requires { IsCapped costs.now.weights.limit children }
    ensures cost { result ≡ node_cost costs.now.weights.limit children }
    ensures capped { IsCapped costs.now.weights.limit result }
{
    costs.plus(costs.node(), children)
}
