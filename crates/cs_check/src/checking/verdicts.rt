// Running numbers, the verdicts of goals, and what the end counts.

ghost use Rattle.std.specs.Prelude.{◌≡◌};
ghost use Rattle.cs_check.specs.Checking.Verdicts.{case_in, CountsGoal, JudgesVerdict};

use crate::checking::cases::Cases;
use crate::checking::entries::{Entries, more};
use crate::checking::excluded::exclude;
use crate::passing::ClaimFault;
use cs_closed::Sets;
use cs_goals::Goal;
use cs_lines::{Counts, GoalWords, Line, Verdict};
use cs_yacc::YaccFile;
use std::alloc::{AllocError, Global};

// The number of a goal's case, or 0.
fn case_in(verdict: Verdict) -> u64
    ensures { result ≡ case_in verdict }
{
    match verdict {
        Verdict::Feasible { case, .. } => case,
        Verdict::Infeasible | Verdict::Large => 0,
    }
}

// What is wrong with the verdict of a goal, if anything.
fn judge(
    alloc: Global,
    file: &YaccFile,
    cases: &Cases<'_, '_>,
    sets: &Option<Sets>,
    goal: &Goal,
    verdict: Verdict,
) -> Result<Option<ClaimFault>, AllocError>
    ensures { JudgesVerdict file.now cases.now sets.now goal.now verdict result }
{
    match verdict {
        Verdict::Feasible { size, case, first } => {
            if cases.is_shown(alloc, goal, size, case, first)? {
                Ok(None)
            } else {
                Ok(Some(ClaimFault::Goal))
            }
        }
        Verdict::Infeasible => {
            if exclude(file, sets, goal) {
                Ok(None)
            } else {
                Ok(Some(ClaimFault::Infeasible))
            }
        }
        Verdict::Large => Ok(None),
    }
}

// The counts with a goal of this verdict more.
fn with_goal(counts: Counts, verdict: Verdict) -> Counts
    ensures { CountsGoal counts verdict result }
{
    let mut new = counts;
    new.goals = more(counts.goals);
    match verdict {
        Verdict::Feasible { .. } => new.feasible = more(counts.feasible),
        Verdict::Infeasible => new.infeasible = more(counts.infeasible),
        Verdict::Large => new.large = more(counts.large),
    }
    new
}

impl<'a, 'm> Entries<'a, 'm> {
    ghost use Rattle.cs_check.specs.Checking.Verdicts.{JudgesEnd, JudgesGoal, TellsNumbered};

    /// Whether the line has its running number.
    pub(crate) fn is_numbered(&self, line: &Line<'_>) -> bool
        ensures { TellsNumbered self.now line.now result }
    {
        match line {
            Line::Case { number, .. } => *number == more(self.counts.cases),
            Line::Goal { number, .. } => *number == more(self.counts.goals),
            Line::Base { number, .. } => *number == more(self.bases),
            Line::Negative { number, .. } => *number == more(self.counts.negatives),
            _ => true,
        }
    }

    /// Takes a goal line, which may come here: what is wrong with it, if anything.
    pub(crate) fn take_goal(
        &mut self,
        alloc: Global,
        file: &YaccFile,
        sets: &Option<Sets>,
        words: GoalWords<'_>,
        verdict: Verdict,
    ) -> Result<Option<ClaimFault>, AllocError>
        ensures { JudgesGoal file.now sets.now self.old words.entry verdict self.new result }
    {
        let Some(goal) = self.due.take(file, &words) else {
            return Ok(Some(ClaimFault::Goal));
        };
        if let Some(fault) = judge(alloc, file, &self.cases, sets, &goal, verdict)? {
            return Ok(Some(fault));
        }
        self.goal_cases.push(case_in(verdict))?;
        self.counts = with_goal(self.counts, verdict);
        Ok(None)
    }

    /// Takes an end line, which may come here: what is wrong with it, if anything.
    pub(crate) fn take_end(&self, counts: Counts) -> Option<ClaimFault>
        ensures { JudgesEnd self.now counts result }
    {
        if !self.due.are_finished() {
            return Some(ClaimFault::Goal);
        }
        if counts != self.counts {
            return Some(ClaimFault::Totals);
        }
        None
    }
}
