// Laws of the verdicts of chains.

ghost use Rattle.cs_grammar.specs.Laws.{AtMostOne};
ghost use Rattle.cs_grammar.specs.Weights.{Weighed};
ghost use Rattle.cs_chain.specs.declared.chains.chain.Chain.{Chain};
ghost use Rattle.cs_chain.specs.Judging.Verdict.{IsVerdictIn, IsChosenIn, ChosenIsLeast, HasTree, HasChosen};

/// A chain has at most one verdict.
pub fn one_chain_verdict()
    ensures { (v : Weighed) (c : Chain) → AtMostOne (IsVerdictIn v c) }
{}

/// A chain has at most one chosen tree, which meets it and is a least one of the trees that do.
pub fn chosen_tree_meets_chain()
    ensures one { (v : Weighed) (c : Chain) → AtMostOne (IsChosenIn v c) }
    ensures least { (v : Weighed) (c : Chain) → ChosenIsLeast v c }
{}

/// A chain has a chosen tree where any tree of the start symbol meets it, however large.
pub fn chosen_tree_exists_for_chain()
    ensures { (v : Weighed) (c : Chain) → HasTree v c → HasChosen v c }
{}
