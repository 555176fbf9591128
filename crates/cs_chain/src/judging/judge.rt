// The verdict of a chain.

ghost use Rattle.std.specs.Prelude.{◌≡◌, ◌++◌, IfOk};
ghost use Rattle.cs_chain.specs.Chains.Chain.{IsChain};
ghost use Rattle.cs_chain.specs.Judging.Verdict.{IsVerdictIn};

use crate::chains::Chain;
use crate::judging::frame::{Core, Frame};
use crate::judging::verdict::ChainVerdict;
use cs_grammar::Derivation;
use cs_least::{Cost, Embeds};
use std::alloc::{AllocError, Global};

/// The verdict of a chain of the grammar, over all trees of the start symbol: `Infeasible` exactly where none meets the chain,
/// `Large` exactly where one does and the least of them is larger than the limit, else the least size and the code of the
/// chosen tree.
pub fn judge_chain(
    alloc: Global,
    embeds: &Embeds,
    chain: &Chain,
) -> Result<ChainVerdict, AllocError>
    requires { IsChain embeds.now.grammar chain.now }
    ensures { IfOk result (IsVerdictIn embeds.now chain.now) }
{
    let costs = embeds.costs();
    let frame = Frame::new(alloc, embeds, chain)?;
    let core = Core::new(alloc, costs, chain.inner)?;
    match costs.plus(frame.cost, core.cost) {
        Cost::Never => Ok(ChainVerdict::Infeasible),
        Cost::Large => Ok(ChainVerdict::Large),
        Cost::Least(size) => Ok(ChainVerdict::Feasible {
            size,
            derivation: joined(frame, &core)?,
        }),
    }
}

// The rule numbers of both parts.
fn joined(frame: Frame, core: &Core) -> Result<Derivation, AllocError>
    ensures { IfOk result (λ derivation.
        derivation ≡ frame.before ++ core.now.code ++ frame.behind) }
{
    let Frame {
        mut before,
        behind,
        ..
    } = frame;
    before.extend_from_slice(core.code.rules())?;
    before.extend_from_slice(behind.rules())?;
    Ok(before)
}
