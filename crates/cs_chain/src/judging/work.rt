// Verdicts as work on chains.

use crate::chains::Chain;
use crate::judging::judge::judge_chain;
use crate::judging::verdict::ChainVerdict;
use cs_fan::Work;
use cs_least::Embeds;
use std::alloc::{AllocError, Global};

/// The verdicts of chains, by the least contexts of a grammar.
#[derive(Clone, Copy)]
pub struct ChainWork<'a> {
    pub embeds: &'a Embeds<'a>,
}

/// The work takes the chains that `judge_chain` can be called with, and a chain's answer is that call's.
impl<'a> Work<Chain, ChainVerdict> for ChainWork<'a> {
    ghost use Rattle.cs_chain.specs.Chains.Chain.{IsChain};
    ghost use Rattle.cs_chain.specs.Judging.Verdict.{IsVerdictIn};

    ghost takes = { λ work chain. IsChain work.embeds.now.grammar chain };

    ghost answers = { λ work chain verdict. IsVerdictIn work.embeds.now chain verdict };

    fn one(&self, alloc: Global, item: &Chain) -> Result<ChainVerdict, AllocError> {
        judge_chain(alloc, self.embeds, item)
    }
}
