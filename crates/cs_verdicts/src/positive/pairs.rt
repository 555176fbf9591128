// The verdicts of pair goals.

ghost use Rattle.std.specs.Prelude.{IfOk};
ghost use Rattle.cs_goals.specs.Goal.{IsLeft, IsRight};
ghost use Rattle.cs_least.specs.Embed.Contexts.{AreContextsOf};
ghost use Rattle.cs_verdicts.specs.Positive.Verdict.{IsVerdictIn};

use crate::positive::tables::Tables;
use crate::positive::verdict::Verdict;
use cs_goals::Goal;
use cs_grammar::Mark;
use cs_least::Cost;
use cs_pairs::Kept;
use std::alloc::{AllocError, Global};

pub(crate) fn judge_pair(
    alloc: Global,
    tables: &Tables,
    kept: &mut Kept,
    left: Mark,
    right: Mark,
) -> Result<Verdict, AllocError>
    requires left { IsLeft tables.now.grammar.tokens left }
    requires right { IsRight tables.now.grammar.tokens right }
    requires contexts { AreContextsOf tables.now kept.old.contexts }
    ensures verdict { IfOk result (IsVerdictIn tables.now (Goal.Pair left right)) }
    ensures contexts { AreContextsOf tables.now kept.new.contexts }
{
    match tables.pairs.cost(left, right) {
        Cost::Never => Ok(Verdict::Infeasible),
        Cost::Large => Ok(Verdict::Large),
        Cost::Least(size) => {
            let derivation = tables.pairs.derive(alloc, kept, left, right)?;
            Ok(Verdict::Feasible { size, derivation })
        }
    }
}
