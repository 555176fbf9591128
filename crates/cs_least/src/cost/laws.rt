// Laws of chosen trees.

ghost use Rattle.cs_grammar.specs.declared.symbol.Symbol.{Symbol};
ghost use Rattle.cs_grammar.specs.Grammar.{PlainGrammar};
ghost use Rattle.cs_grammar.specs.Weights.{Measure};
ghost use Rattle.cs_grammar.specs.Laws.{AtMostOne};
ghost use Rattle.cs_least.specs.Cost.Chosen.{IsChosen, HasTree, HasChosen, ChosenIsLeast};

/// Whatever the weights, a chosen tree of a symbol exists exactly where a tree of it exists, however large, and it is of
/// least size.
pub fn chosen_tree_exists()
    ensures exists { (w : Measure) (g : PlainGrammar) (x : Symbol) → HasTree g x → HasChosen w g x }
    ensures least { (w : Measure) (g : PlainGrammar) (x : Symbol) → ChosenIsLeast w g x }
{}

/// A symbol has at most one chosen tree.
pub fn one_chosen_tree()
    ensures { (w : Measure) (g : PlainGrammar) (x : Symbol) → AtMostOne (IsChosen w g x) }
{}
