// What follows the first token of a pair: what the least tree of each pair costs, and where its tokens meet.

ghost use Rattle.std.specs.Prelude.{◌≡◌, IfOk, length};
ghost use Rattle.cs_grammar.specs.Grammar.{IsNumberOf};
ghost use Rattle.cs_least.specs.Embed.Ways.{told_cost};
ghost use Rattle.cs_least.specs.Cost.Rank.{cost_of, plus, IsCapped};
ghost use Rattle.cs_pairs.specs.Kinds.Nets.{AreStepsToEnds};
ghost use Rattle.cs_pairs.specs.Pairs.Fronts.{IsAround};
ghost use Rattle.cs_pairs.specs.Pairs.Meetings.{pair_cost, AreFollowsIn, AreFollowRows};

use crate::kinds::{Kinds, Row};
use crate::pairs::fronts::Around;
use crate::pairs::meeting::{Meetings, origin_in};
use crate::pairs::sources::sources_of;
use cs_least::{Cost, Reach, Steps, cost_of, least_ways, plus, told_cost};
use std::alloc::{AllocError, Global};

// What the pairs of one second token cost, and where they meet.
#[derive(Debug, Drop)]
pub(crate) struct Follows {
    pub(crate) costs: Row,
    pub(crate) meetings: Meetings,
}

// A leaf of the first token, and what follows it.
fn pair_cost(kinds: &Kinds, first: u16, reach: Reach) -> Cost
    requires first { IsNumberOf (length kinds.now.weights.numbers) first }
    requires reach { IsCapped kinds.now.weights.limit (told_cost reach) }
    ensures { result ≡ pair_cost kinds.now.weights first reach }
{
    let weights = kinds.weights();
    let leaf = cost_of(weights.number(first), weights.limit());
    plus(leaf, told_cost(reach), weights.limit())
}

// The pairs of one second token, by the least ways inwards from all nodes at which it may follow.
fn follows_of(
    alloc: Global,
    kinds: &Kinds,
    steps: &Steps,
    around: &Around,
    second: u16,
) -> Result<Follows, AllocError>
    requires steps { AreStepsToEnds kinds.now steps.now }
    requires around { IsAround kinds.now around.now }
    requires second { IsNumberOf kinds.now.grammar.tokens second }
    ensures { IfOk result (AreFollowsIn kinds.now second) }
{
    let sources = sources_of(alloc, kinds, around, second)?;
    let table = least_ways(alloc, steps, &sources.list, kinds.weights().limit())?;
    let mut costs = Vec::new(alloc);
    let mut meetings = Vec::new(alloc);
    for place in 0..kinds.grammar().tokens() {
        let reach = table[place as usize];
        costs.push(pair_cost(kinds, place + 1, reach))?;
        meetings.push(origin_in(&sources.places, reach))?;
    }
    Ok(Follows {
        costs: Row::new(costs),
        meetings: Meetings::new(meetings),
    })
}

// Those of all second tokens.
#[derive(Debug, Drop)]
pub(crate) struct FollowRows {
    pub(crate) costs: Vec<Row>,
    pub(crate) meetings: Vec<Meetings>,
}

pub(crate) fn follow_rows(
    alloc: Global,
    kinds: &Kinds,
    steps: &Steps,
    around: &Around,
) -> Result<FollowRows, AllocError>
    requires steps { AreStepsToEnds kinds.now steps.now }
    requires around { IsAround kinds.now around.now }
    ensures { IfOk result (AreFollowRows kinds.now) }
{
    let mut rows = FollowRows {
        costs: Vec::new(alloc),
        meetings: Vec::new(alloc),
    };
    for place in 0..kinds.grammar().tokens() {
        let follows = follows_of(alloc, kinds, steps, around, place + 1)?;
        rows.costs.push(follows.costs)?;
        rows.meetings.push(follows.meetings)?;
    }
    Ok(rows)
}
