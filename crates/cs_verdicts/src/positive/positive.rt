// The goals of a grammar with their verdicts, one after another.

ghost use Rattle.std.specs.Prelude.{◌≡◌, false, IfOk, OnErr};
ghost use Rattle.cs_verdicts.specs.Positive.Positives.{positives_of, GivesGoalOf, GivesNext};

use crate::positive::judges::Judge;
use crate::positive::tables::Tables;
use crate::positive::verdict::Verdict;
use cs_choices::Criteria;
use cs_goals::{Goal, Goals};
use cs_least::Embeds;
use cs_pairs::Kept;
use std::alloc::{AllocError, Global};
use std::marker::Model;

/// A goal with its verdict.
#[derive(Debug, Drop)]
pub struct Positive {
    pub goal: Goal,
    pub verdict: Verdict,
}

/// The goals whose verdicts are still to be given, by the tables of a grammar.
#[derive(Debug, Drop)]
pub struct Positives<'t> {
    judge: Judge<'t>,
    goals: Goals<'t>,
    kept: Kept,
}

impl<'t> Model for Positives<'t> {
    ghost use Rattle.std.specs.Prelude.{All};
    ghost use Rattle.cs_verdicts.specs.Positive.Judges.{judged_by, CanJudge};
    ghost use Rattle.cs_least.specs.Embed.Contexts.{AreContextsOf};
    ghost use Rattle.cs_verdicts.specs.Positive.Positives.{ToJudge, AreOfGrammar};

    ghost Value = { ToJudge };

    ghost view = { λ p. record { tables = judged_by p.judge; goals = p.goals } };

    ghost invariant = { λ p. AreOfGrammar (judged_by p.judge).grammar p.goals
        × All (CanJudge p.judge) p.goals
        × AreContextsOf (judged_by p.judge) p.kept.contexts };
}

impl<'t> Positives<'t> {
    /// The goals of the chosen criteria, none of which was given yet.
    pub fn new(tables: &'t Tables<'t>, criteria: Criteria) -> Positives<'t>
        ensures { result ≡ positives_of tables.now criteria }
    {
        Positives {
            judge: Judge::Tables(tables),
            goals: Goals::new(tables.grammar(), criteria),
            kept: Kept::new(tables.embeds()),
        }
    }

    /// The same without the tables of pairs, where no pair goals are chosen.
    pub fn of_trees(embeds: &'t Embeds<'t>, criteria: Criteria) -> Positives<'t>
        requires { criteria.pair ≡ false }
        ensures { result ≡ positives_of embeds.now criteria }
    {
        Positives {
            judge: Judge::Trees(embeds),
            goals: Goals::new(embeds.grammar(), criteria),
            kept: Kept::new(embeds),
        }
    }

    /// Takes the first goal away and gives it with its verdict. None where no goal is left, and then there is none from then
    /// on. After a refusal, which is want of memory, the same goal comes next.
    pub fn next(&mut self, alloc: Global) -> Result<Option<Positive>, AllocError>
        ensures found { IfOk result (λ found. GivesNext self.old found self.new) }
        ensures goal { IfOk result (GivesGoalOf self.old.tables.grammar) }
        ensures tables { self.new.tables ≡ self.old.tables }
        ensures refused { OnErr result (self.new.goals ≡ self.old.goals) }
    {
        let mut goals = self.goals.copied();
        let Some(goal) = goals.next() else {
            return Ok(None);
        };
        self.kept.contexts.make_room()?;
        let verdict = self.judge.verdict(alloc, &goal, &mut self.kept)?;
        self.goals = goals;
        Ok(Some(Positive { goal, verdict }))
    }
}
