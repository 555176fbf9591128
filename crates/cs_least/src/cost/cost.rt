// What the least thing of a kind costs, and sums of such costs.

ghost use Rattle.std.specs.Prelude.{◌≡◌, ◌≤◌};
ghost use Rattle.cs_least.specs.Cost.Rank.{rank, IsCapped, cost_of, plus, TellsLower};

/// What the least of a kind of trees costs: there is none, or each is larger than the limit, or the least has this size.
#[derive(Clone, Copy, Debug, PartialEq, Eq)]
pub enum Cost {
    Never,
    Large,
    Least(u32),
}

/// The cost of one thing of a size: `Large` above the limit.
pub fn cost_of(size: u32, limit: u32) -> Cost
    ensures { result ≡ cost_of limit size }
{
    if size <= limit {
        Cost::Least(size)
    } else {
        Cost::Large
    }
}

/// The cost of two parts together: `Never` where one has none, `Large` where the sum is above the limit.
pub fn plus(a: Cost, b: Cost, limit: u32) -> Cost
    requires limit { limit ≤ 1000000 }
    requires a { IsCapped limit a }
    requires b { IsCapped limit b }
    ensures { result ≡ plus limit a b }
{
    match (a, b) {
        (Cost::Least(m), Cost::Least(n)) => cost_of(m + n, limit),
        (Cost::Never, _) | (_, Cost::Never) => Cost::Never,
        _ => Cost::Large,
    }
}

/// Whether a cost is lower, under whichever limit: sizes come first, then `Large`, then `Never`.
pub fn is_below(a: Cost, b: Cost) -> bool
    ensures { TellsLower result a b }
{
    match (a, b) {
        (Cost::Least(m), Cost::Least(n)) => m < n,
        (Cost::Least(_), _) => true,
        (Cost::Large, Cost::Never) => true,
        _ => false,
    }
}

/// The cost as a number: a size within the limit, then 1 more than the limit for `Large`, and 2 more for `Never`.
pub(crate) fn rank(cost: Cost, limit: u32) -> u32
    requires { limit ≤ 1000000 }
    ensures { result ≡ rank limit cost }
{
    match cost {
        Cost::Least(size) => size,
        Cost::Large => limit + 1,
        Cost::Never => limit + 2,
    }
}
