// The law of what is told of a derivation that is placed.

ghost use Rattle.std.specs.Prelude.{ℕ, List};
ghost use Rattle.cs_goals.specs.declared.goal.Goal.{Goal};
ghost use Rattle.cs_verdicts.specs.Cases.Cases.{PlainCases};
ghost use Rattle.cs_verdicts.specs.Cases.Laws.{IsOnePlacing};

/// What is told of a goal and a derivation that are placed, and what the cases are then, is one answer.
pub fn one_placing()
    ensures { (old : PlainCases) (goal : Goal) (code : List ℕ) → IsOnePlacing old goal code }
{}
