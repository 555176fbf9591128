// What is made of a goal.

ghost use Rattle.std.specs.Prelude.{◌≡◌, IfNone, IfSome, false, true};
ghost use Rattle.cs_manifest.specs.Manifest.Lines.{is_feasible};
ghost use Rattle.cs_writing.specs.Plan.Made.{CountsByVerdict, CountsCase, HasCaseLines, HasGoalLines, HasItsNames};
ghost use Rattle.cs_writing.specs.Plan.Made.{HasNoCaseLines, has_new_case};

use crate::plan::placing::Placed;
use cs_manifest::{Entry, SharedVerdict};
use cs_texts::Rendered;
use cs_verdicts::Verdict;
use std::marker::Model;

/// A goal with its verdict, in the second format also its verdict there, and the tokens of its derivation, where it has
/// one; and what came of their rendering: in the first format of those of a feasible goal, in the second of a new case.
#[derive(Drop)]
pub struct Made {
    pub(crate) placed: Placed,
    pub(crate) rendered: Option<Rendered>,
}

impl Model for Made {
    ghost use Rattle.cs_writing.specs.Plan.Made.{HasItsCase, MadeEntry, made_of};

    ghost Value = { MadeEntry };

    ghost view = { λ m. made_of m.placed m.rendered };

    ghost invariant = { λ m. HasItsCase m.placed.verdict m.placed.shared m.rendered };
}

impl Made {
    /// The entry of its case, where that is new. The first format has no cases.
    pub fn case(&self) -> Option<Entry<'_>>
        ensures lines { IfSome result (HasCaseLines self.now) }
        ensures counts { IfSome result CountsCase }
        ensures named { IfSome result (HasItsNames self.now) }
        ensures is_new { IfSome result (λ _. has_new_case self.now.shared ≡ true) }
        ensures none { IfNone result (has_new_case self.now.shared ≡ false) }
        ensures no_lines { IfNone result (HasNoCaseLines self.now) }
    {
        match (&self.placed.verdict, &self.placed.shared, &self.rendered) {
            (
                Verdict::Feasible { derivation, .. },
                Some(SharedVerdict::Feasible { size, named }),
                Some(rendered),
            ) => Some(Entry::Case {
                number: named.case,
                size: *size,
                derivation,
                tokens: &self.placed.tokens,
                rendered,
            }),
            _ => None,
        }
    }

    /// The entry of the goal, with its number from 1.
    pub fn goal(&self, number: u64) -> Entry<'_>
        ensures lines { HasGoalLines self.now number result }
        ensures counts { CountsByVerdict self.now.verdict result }
        ensures named { HasItsNames self.now result }
    {
        match self.placed.shared {
            None => Entry::Goal {
                number,
                goal: &self.placed.goal,
                verdict: &self.placed.verdict,
                tokens: &self.placed.tokens,
                rendered: self.rendered.as_ref(),
            },
            Some(verdict) => Entry::Shared {
                number,
                goal: &self.placed.goal,
                verdict,
            },
        }
    }

    /// The tokens of the goal's derivation. None where it isn't feasible.
    pub fn sentence(&self) -> Option<&[u16]>
        ensures feasible { IfSome result (λ _. is_feasible self.now.verdict ≡ true) }
        ensures tokens { IfSome result (λ tokens. tokens.now ≡ self.now.tokens) }
        ensures none { IfNone result (is_feasible self.now.verdict ≡ false) }
    {
        match &self.placed.verdict {
            Verdict::Feasible { .. } => Some(&self.placed.tokens),
            Verdict::Infeasible | Verdict::Large => None,
        }
    }
}
