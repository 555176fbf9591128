// How many chains there are of each verdict.

ghost use Rattle.std.specs.Prelude.{◌≡◌, []};
ghost use Rattle.cs_chain.specs.Judging.Frame.{verdict_by};
ghost use Rattle.cs_chain_text.specs.Progress.{HasRoom, no_chains, with_verdict};

use crate::entries::entry::Told;
use cs_chain::ChainVerdict;
use cs_least::Cost;

/// How many chains there are, and how many of each verdict.
#[derive(Clone, Copy, Debug, PartialEq, Eq)]
pub(crate) struct Tally {
    pub(crate) goals: u64,
    pub(crate) feasible: u64,
    pub(crate) infeasible: u64,
    pub(crate) large: u64,
}

impl Tally {
    pub(crate) fn new() -> Tally
        ensures { result ≡ no_chains }
    {
        Tally {
            goals: 0,
            feasible: 0,
            infeasible: 0,
            large: 0,
        }
    }

    /// Counts one chain more.
    pub(crate) fn count(&mut self, told: &Told)
        requires { HasRoom self.old }
        ensures { self.new ≡ with_verdict self.old told.now.verdict }
    {
        self.goals += 1;
        match told.verdict {
            ChainVerdict::Feasible { .. } => self.feasible += 1,
            ChainVerdict::Infeasible => self.infeasible += 1,
            ChainVerdict::Large => self.large += 1,
        }
    }
    /// Counts one chain more, by what its least tree costs.
    #[inline(always)]
    pub(crate) fn count_cost(&mut self, cost: Cost)
        requires { HasRoom self.old }
        ensures { self.new ≡ with_verdict self.old (verdict_by cost []) }
    {
        self.goals += 1;
        match cost {
            Cost::Least(_) => self.feasible += 1,
            Cost::Never => self.infeasible += 1,
            Cost::Large => self.large += 1,
        }
    }
}
