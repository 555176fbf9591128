// Laws of the text.

ghost use Rattle.std.specs.Prelude.{Option};
ghost use Rattle.cs_choices.specs.declared.weigh.Weigh.{Weigh};
ghost use Rattle.cs_io.specs.Asked.{IsNotWithout, IsOne};
ghost use Rattle.cs_manifest.specs.Manifest.Manifest.{Texts};
ghost use Rattle.cs_yacc.specs.Reading.File.{File};
ghost use Rattle.cs_chain_text.specs.Entries.Text.{IsChainsText};

use cs_manifest::one_text;
use cs_scanner::some_list_of_lexemes;
use cs_texts::some_rendering;

/// A file has at most one text of its chains.
pub fn one_chains_text()
    ensures { (f : File) (texts : Option Texts) (w : Weigh) → IsOne (IsChainsText f texts w) }
{
    one_text();
}

/// No file is without a text of its chains.
pub fn some_chains_text()
    ensures { (f : File) (texts : Option Texts) (w : Weigh)
        → IsNotWithout (IsChainsText f texts w) }
{
    some_list_of_lexemes();
    some_rendering();
}
