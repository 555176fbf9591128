// What verdicts come from.

ghost use Rattle.std.specs.Prelude.{IfOk};
ghost use Rattle.cs_goals.specs.Goal.{IsGoal};
ghost use Rattle.cs_verdicts.specs.Positive.Judges.{judged_by, CanJudge};
ghost use Rattle.cs_least.specs.Embed.Contexts.{AreContextsOf};
ghost use Rattle.cs_verdicts.specs.Positive.Verdict.{IsVerdictIn};

use crate::positive::judging::{judge_keeping, judge_tree_keeping};
use crate::positive::tables::Tables;
use crate::positive::verdict::Verdict;
use cs_goals::Goal;
use cs_least::Embeds;
use cs_pairs::Kept;
use std::alloc::{AllocError, Global};

// All tables, or those that rule and context goals need.
#[derive(Clone, Copy, Debug)]
pub(crate) enum Judge<'t> {
    Tables(&'t Tables<'t>),
    Trees(&'t Embeds<'t>),
}

impl<'t> Judge<'t> {
    pub(crate) fn verdict(
        &self,
        alloc: Global,
        goal: &Goal,
        kept: &mut Kept,
    ) -> Result<Verdict, AllocError>
        requires goal { IsGoal (judged_by self.now).grammar goal.now }
        requires kind { CanJudge self.now goal.now }
        requires contexts { AreContextsOf (judged_by self.now) kept.old.contexts }
        ensures verdict { IfOk result (IsVerdictIn (judged_by self.now) goal.now) }
        ensures contexts { AreContextsOf (judged_by self.now) kept.new.contexts }
    {
        match *self {
            Judge::Tables(tables) => judge_keeping(alloc, tables, goal, kept),
            Judge::Trees(embeds) => judge_tree_keeping(alloc, embeds, goal, &mut kept.contexts),
        }
    }
}
