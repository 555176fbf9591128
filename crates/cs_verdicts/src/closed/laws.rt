// The law of closed sets.

ghost use Rattle.cs_verdicts.specs.Closed.Closed.{AreClosedSets};
ghost use Rattle.cs_grammar.specs.Grammar.{PlainGrammar};
ghost use Rattle.cs_grammar.specs.Laws.{AtMostOne};

/// A grammar has one list of each closed set.
pub fn one_list_of_sets()
    ensures { (g : PlainGrammar) → AtMostOne (AreClosedSets g) }
{}
