// Laws of chosen trees of pairs.

ghost use Rattle.cs_grammar.specs.declared.symbol.Mark.{Mark};
ghost use Rattle.cs_grammar.specs.Laws.{AtMostOne};
ghost use Rattle.cs_grammar.specs.Weights.{Weighed};
ghost use Rattle.cs_pairs.specs.Pairs.Laws.{IsChosenPairIn, HasPairTree, HasChosenPair, ChosenPairIsLeast};

/// A pair of marks has at most one chosen tree.
pub fn one_chosen_pair()
    ensures { (v : Weighed) (a b : Mark) → AtMostOne (IsChosenPairIn v a b) }
{}

/// A chosen tree of a pair of marks exists exactly where a tree has the pair, however large, and it is a least such tree.
pub fn chosen_pair_exists()
    ensures exists { (v : Weighed) (a b : Mark) → HasPairTree v a b → HasChosenPair v a b }
    ensures least { (v : Weighed) (a b : Mark) → ChosenPairIsLeast v a b }
{}
