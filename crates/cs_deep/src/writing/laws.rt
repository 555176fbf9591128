// Laws of the texts.

ghost use Rattle.std.specs.Prelude.{ℕ, List};
ghost use Rattle.cs_deep.specs.Edits.Classes.{HasOneClass, HasSomeClass};
ghost use Rattle.cs_deep.specs.Writing.Deep.{AddsUp, EditEntry, IsDeepText};
ghost use Rattle.cs_deep.specs.Membership.{IsMemberText, TellsOutside};
ghost use Rattle.cs_grammar.specs.Grammar.{PlainGrammar};
ghost use Rattle.cs_io.specs.Asked.{IsNotWithout, IsOne};
ghost use Rattle.cs_manifest.specs.Manifest.Manifest.{Choice};
ghost use Rattle.cs_yacc.specs.Reading.File.{File};

use cs_manifest::one_text;
use cs_scanner::some_list_of_lexemes;
use cs_texts::some_rendering;

/// No list is without a text that says whether it is a sentence, and each such text says the same: it is `outside` exactly
/// where no tree of the start symbol yields the list.
pub fn some_membership()
    ensures some { (g : PlainGrammar) (tokens : List ℕ) → IsNotWithout (IsMemberText g tokens) }
    ensures same { (g : PlainGrammar) (tokens : List ℕ) → TellsOutside g tokens }
{}

/// An edit of a base has at most one class.
pub fn one_class()
    ensures { (g : PlainGrammar) (base : List ℕ) → HasOneClass g base }
{}

/// No edit of a base is without a class.
pub fn some_class()
    ensures { (g : PlainGrammar) (base : List ℕ) → HasSomeClass g base }
{}

/// The counts of the four classes add up to that of the edits.
pub fn classes_add_up()
    ensures { (entries : List EditEntry) → AddsUp entries }
{}

/// A file has at most one text of `deep` by a choice.
pub fn one_deep()
    ensures { (choice : Choice) (file : File) → IsOne (IsDeepText choice file) }
{
    one_text();
}

/// No file is without a text of `deep` by a choice.
pub fn some_deep()
    ensures { (choice : Choice) (file : File) → IsNotWithout (IsDeepText choice file) }
{
    some_list_of_lexemes();
    some_rendering();
}
