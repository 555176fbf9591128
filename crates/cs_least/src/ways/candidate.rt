// Ways that were found while the search goes on.

ghost use Rattle.std.specs.Prelude.{◌≡◌, ◌+◌, ◌<◌, ◌^◌};
ghost use Rattle.cs_least.specs.Ways.Candidates.{beginning, after, reach_of, is_known};

use crate::ways::reach::Reach;
use crate::ways::step::{Source, Step};

// What a way costs, with all costs above the limit taken as one, the place of its source, and the node that it reaches. Of
// two candidates the one that costs less comes first, and among those that cost the same the one with the earlier source.
#[derive(Clone, Copy, Debug, PartialEq, Eq, PartialOrd, Ord)]
pub(crate) struct Candidate {
    pub(crate) cost: u32,
    pub(crate) origin: u32,
    pub(crate) node: u16,
}

impl Candidate {
    // The way that begins at the source at this place.
    pub(crate) fn beginning(limit: u32, origin: u32, source: Source) -> Candidate
        requires { limit + 1 < 2 ^ 32 }
        ensures { result ≡ beginning limit origin source }
    {
        Candidate {
            cost: source.cost.min(limit + 1),
            origin,
            node: source.node,
        }
    }

    // The way that goes on by a step.
    #[inline(always)]
    pub(crate) fn after(self, limit: u32, step: Step) -> Candidate
        requires { limit + 1 < 2 ^ 32 }
        ensures { result ≡ after limit self step }
    {
        Candidate {
            cost: self.cost.saturating_add(step.cost).min(limit + 1),
            origin: self.origin,
            node: step.to,
        }
    }

    // What is told of the node, if no way to it is less.
    pub(crate) fn reach(self, limit: u32) -> Reach
        ensures { result ≡ reach_of limit self }
    {
        if self.cost <= limit {
            Reach::Least {
                cost: self.cost,
                origin: self.origin,
            }
        } else {
            Reach::Large
        }
    }
}

// Whether something is known and what was found doesn't come before it.
#[inline(always)]
pub(crate) fn is_known(known: Option<Candidate>, found: Candidate) -> bool
    ensures { result ≡ is_known known found }
{
    match known {
        Some(best) => !(found < best),
        None => false,
    }
}
