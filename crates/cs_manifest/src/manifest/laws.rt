// Laws of manifests: a file has exactly one by each choice.

ghost use Rattle.std.specs.Prelude.{Option};
ghost use Rattle.cs_grammar.specs.Grammar.{PlainGrammar};
ghost use Rattle.cs_grammar.specs.Laws.{AtMostOne};
ghost use Rattle.cs_yacc.specs.Reading.File.{File};
ghost use Rattle.cs_manifest.specs.Manifest.Manifest.{Choice, HasFewNegatives, HasOneText, IsManifest, Texts};
ghost use Rattle.cs_io.specs.Asked.{IsNotWithout};

use cs_scanner::{one_list_of_lexemes, some_list_of_lexemes};
use cs_texts::{one_rendering, some_rendering};

/// By any texts tokens have at most one list of lexemes and one rendering.
pub fn one_text()
    ensures { (texts : Option Texts) → HasOneText texts }
{
    one_list_of_lexemes();
    one_rendering();
}

/// A file has at most one manifest by a choice.
pub fn one_manifest()
    ensures { (choice : Choice) (file : File) → AtMostOne (IsManifest choice file) }
{
    one_text();
}

/// No file is without a manifest by a choice.
pub fn some_manifest()
    ensures { (choice : Choice) (file : File) → IsNotWithout (IsManifest choice file) }
{
    some_list_of_lexemes();
    some_rendering();
}

/// Where so many negatives are kept of each operator and left mark, a manifest has at most as many for each of the four operators
/// and each left mark, the begin mark and the tokens.
pub fn few_negatives()
    ensures { (g : PlainGrammar) (choice : Choice) → HasFewNegatives g choice }
{}
