// Laws of spellings.

ghost use Rattle.cs_choices.specs.declared.weigh.Weigh.{Weigh};
ghost use Rattle.cs_io.specs.Asked.{IsNotWithout, IsOne};
ghost use Rattle.cs_manifest.specs.Manifest.Manifest.{Texts};
ghost use Rattle.cs_spell.specs.Telling.Spelling.{IsSpelling};
ghost use Rattle.cs_yacc.specs.Reading.File.{File};

/// A file and what texts are made by have at most one text of spellings.
pub fn one_spelling()
    ensures { (f : File) (texts : Texts) (weigh : Weigh)
        → IsOne (IsSpelling f texts weigh) }
{}

/// No file and what texts are made by are without a text of spellings.
pub fn some_spelling()
    ensures { (f : File) (texts : Texts) (weigh : Weigh)
        → IsNotWithout (IsSpelling f texts weigh) }
{}
