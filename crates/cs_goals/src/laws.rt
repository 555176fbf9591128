// The law of the list of goals.

ghost use Rattle.std.specs.Prelude.{◌≢◌};
ghost use Rattle.std.specs.List.{AllPairs};
ghost use Rattle.cs_grammar.specs.Grammar.{PlainGrammar};
ghost use Rattle.cs_choices.specs.declared.criteria.Criteria.{Criteria};
ghost use Rattle.cs_goals.specs.Goal.{IsWantedGoal};
ghost use Rattle.cs_goals.specs.Goals.{goals, HasExactly};

/// Each goal of the list stands in it once, and the goals in it are the grammar's goals of the chosen criteria, those for
/// which `fits_goal` holds.
pub fn each_goal_once()
    ensures once { (g : PlainGrammar) (c : Criteria) → AllPairs (λ a b. a ≢ b) (goals g c) }
    ensures all { (g : PlainGrammar) (c : Criteria) → HasExactly (goals g c) (IsWantedGoal g c) }
{}
