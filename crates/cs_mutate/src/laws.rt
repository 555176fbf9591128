// The laws of the lists of edits and negatives.

ghost use Rattle.std.specs.Prelude.{ℕ, List, Option};
ghost use Rattle.cs_grammar.specs.Grammar.{PlainGrammar};
ghost use Rattle.cs_mutate.specs.declared.edit.Edit.{Edit};
ghost use Rattle.cs_choices.specs.declared.operators.Operators.{Operators};
ghost use Rattle.cs_mutate.specs.declared.negative.Negative.{Negative};
ghost use Rattle.cs_mutate.specs.Mutant.{ResultsDiffer, HasEachMutant, HasEachEdit};
ghost use Rattle.cs_mutate.specs.Negatives.{ComesFirst, HasNone, HasOneList, HasEachNegative, IsOutside};
ghost use Rattle.cs_mutate.specs.Kept.{AreOfThose, AreOutside, HaveOneList, HaveSomeList};
ghost use Rattle.cs_mutate.specs.Kept.{IsBounded, KeepsAll, StaysFew};

/// The results of a list's edits all differ, and they are the lists other than itself that come from
/// it by a chosen operator: by the deletion of one token, the insertion of one, the replacement of
/// one or the exchange of two neighbours. The edits are those of chosen operators that fit the list
/// and are listed: of those with one result, one.
pub fn each_mutant_once()
    ensures once { (tokens : ℕ) (w : List ℕ) (c : Operators) → ResultsDiffer tokens w c }
    ensures all { (tokens : ℕ) (w : List ℕ) (c : Operators) → HasEachMutant tokens w c }
    ensures edits { (tokens : ℕ) (w : List ℕ) (c : Operators) → HasEachEdit tokens w c }
{}

/// What a search for negatives gives, one after another, is the one list of the negatives of its
/// edits: the negative that it gives stands in front of those of the edits that are left, and where
/// each edit that is left is harmless there is none. The list has the negative of each edit that has
/// one, and nothing else. No negative's list is a sentence.
pub fn one_list_of_negatives()
    ensures next { (g : PlainGrammar) (w : List ℕ) → ComesFirst g w }
    ensures none { (g : PlainGrammar) (w : List ℕ) (es : List Edit) → HasNone g w es }
    ensures one { (g : PlainGrammar) (w : List ℕ) (es : List Edit) → HasOneList g w es }
    ensures all { (g : PlainGrammar) (w : List ℕ) (es : List Edit) → HasEachNegative g w es }
    ensures outside { (g : PlainGrammar) (w : List ℕ) (n : Negative) → IsOutside g w n }
{}

/// The kept negatives of a list, behind those of lists before it, are one list: there is at most one, and it isn't so that there
/// is none. Each of them is one of the list's negatives, so that none is a sentence, and its poisoned pair is the only one.
/// Where no number is chosen all negatives are kept.
pub fn one_list_of_kept()
    ensures one { (g : PlainGrammar) (w : List ℕ) → HaveOneList g w }
    ensures some { (g : PlainGrammar) (w : List ℕ) → HaveSomeList g w }
    ensures each { (g : PlainGrammar) (w : List ℕ) (first : Option ℕ) → AreOfThose g w first }
    ensures outside { (g : PlainGrammar) (w : List ℕ) (first : Option ℕ) → AreOutside g w first }
    ensures all { (g : PlainGrammar) (w : List ℕ) → KeepsAll g w }
{}

/// Of any negative at most so many kept ones are alike, through all lists. So they are at most that number for each operator and
/// each left mark.
pub fn few_kept()
    ensures alike { (g : PlainGrammar) (w : List ℕ) (most : ℕ) → StaysFew g w most }
    ensures few { (tokens most : ℕ) (ns : List Negative) → IsBounded tokens most ns }
{}
