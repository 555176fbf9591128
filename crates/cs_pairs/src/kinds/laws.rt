// Laws of chosen trees of kinds.

ghost use Rattle.cs_grammar.specs.declared.symbol.Symbol.{Symbol};
ghost use Rattle.cs_grammar.specs.Laws.{AtMostOne};
ghost use Rattle.cs_grammar.specs.Weights.{Weighed};
ghost use Rattle.cs_pairs.specs.declared.kinds.kind.TreeKind.{TreeKind};
ghost use Rattle.cs_pairs.specs.Kinds.Flat.{AreFlatWhereChosen};
ghost use Rattle.cs_pairs.specs.Kinds.Laws.{IsChosenIn, AnyIsChosen, ChosenExists, ChosenIsLeast};

/// A kind and a symbol have at most one chosen tree. That of any yield is the symbol's chosen tree.
pub fn one_chosen_of_kind()
    ensures one { (v : Weighed) (k : TreeKind) (x : Symbol) → AtMostOne (IsChosenIn v k x) }
    ensures any { (v : Weighed) (x : Symbol) → AnyIsChosen v x }
{}

/// A chosen tree of a kind and a symbol exists exactly where a tree of the kind and the symbol exists, however large, and it
/// is of least size.
pub fn chosen_of_kind_exists()
    ensures exists { (v : Weighed) (k : TreeKind) (x : Symbol) → ChosenExists v k x }
    ensures least { (v : Weighed) (k : TreeKind) (x : Symbol) → ChosenIsLeast v k x }
{}

/// In a chosen list of trees of a kind the tree of the kind itself stands at the lowest place of all lists of that size: each tree
/// before it is chosen of the kind that may stand before, and those behind it of the kind that may stand behind.
pub fn flat_of_kind()
    ensures { (v : Weighed) (k : TreeKind) → AreFlatWhereChosen v k }
{}
