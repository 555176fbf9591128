// The laws of closed sets.

ghost use Rattle.cs_grammar.specs.declared.symbol.Mark.{Mark};
ghost use Rattle.cs_grammar.specs.Grammar.{PlainGrammar};
ghost use Rattle.cs_goals.specs.declared.goal.Goal.{Goal};
ghost use Rattle.cs_closed.specs.Closed.Sets.{PlainSets};
ghost use Rattle.cs_closed.specs.Closed.Laws.{ClosedSetsExclude, ClosedSetsPart, ExactSetsAreClosed, ExactSetsExclude};

/// A goal that closed sets exclude is met by no tree of the start symbol.
pub fn closed_sets_exclude()
    ensures { (g : PlainGrammar) (s : PlainSets) (goal : Goal) → ClosedSetsExclude g s goal }
{}

/// Two marks of which the second isn't in the first one's line of closed sets are adjacent in no sentence.
pub fn closed_sets_part()
    ensures { (g : PlainGrammar) (s : PlainSets) (a b : Mark) → ClosedSetsPart g s a b }
{}

/// The exact sets of a grammar are closed, and they exclude each of its goals that no tree of the start symbol meets.
pub fn exact_sets_pass()
    ensures closed { (g : PlainGrammar) (s : PlainSets) → ExactSetsAreClosed g s }
    ensures exclude { (g : PlainGrammar) (s : PlainSets) (goal : Goal) → ExactSetsExclude g s goal }
{}
