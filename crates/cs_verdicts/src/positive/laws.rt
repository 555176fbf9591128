// Laws of verdicts and of lists of them.

ghost use Rattle.std.specs.Prelude.{List};
ghost use Rattle.cs_grammar.specs.Laws.{AtMostOne};
ghost use Rattle.cs_grammar.specs.Weights.{Weighed};
ghost use Rattle.cs_goals.specs.declared.goal.Goal.{Goal};
ghost use Rattle.cs_goals.specs.Goal.{IsGoal};
ghost use Rattle.cs_verdicts.specs.Positive.Positives.{ToJudge, ArePositives, ComesFirst};
ghost use Rattle.cs_verdicts.specs.Positive.Verdict.{IsVerdictIn, IsChosenIn, ChosenIsLeast, HasTree, HasChosen};

/// A goal has at most one verdict.
pub fn one_verdict()
    ensures { (v : Weighed) (goal : Goal) → AtMostOne (IsVerdictIn v goal) }
{}

/// A goal has at most one chosen tree, which meets it and is a least one of the trees that do.
pub fn chosen_tree_meets()
    ensures one { (v : Weighed) (goal : Goal) → AtMostOne (IsChosenIn v goal) }
    ensures least { (v : Weighed) (goal : Goal) → ChosenIsLeast v goal }
{}

/// A goal of a grammar has a chosen tree where any tree of the start symbol meets it, however large.
pub fn chosen_tree_exists_for_goal()
    ensures { (v : Weighed) (goal : Goal) → IsGoal v.grammar goal → HasTree v goal
        → HasChosen v goal }
{}

/// What is given next stands in front of the positives of the goals that are left, and goals have at most one list of
/// positives.
pub fn one_list_of_positives()
    ensures next { (old : ToJudge) → ComesFirst old }
    ensures one { (v : Weighed) (left : List Goal) → AtMostOne (ArePositives v left) }
{}
