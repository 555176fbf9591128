// Laws of least texts.

ghost use Rattle.std.specs.Prelude.{ℕ, List};
ghost use Rattle.cs_pattern_parts.specs.Tree.Pattern.{Regex};
ghost use Rattle.cs_io.specs.Asked.{IsNotWithout, IsOne};
ghost use Rattle.cs_scanner.specs.Scan.Scan.{Scanning};
ghost use Rattle.cs_yacc.specs.Reading.File.{File};
ghost use Rattle.cs_lexical.specs.Lines.{IsLexical};
ghost use Rattle.cs_lexical.specs.Laws.{HasLeastBoth, HasLeastWin};

/// A rule has at most one least text that it wins, and not none where it wins some text.
pub fn one_least_win()
    ensures { (patterns : List Regex) (rule : ℕ) → HasLeastWin patterns rule }
{}

/// Two rules have at most one least text in which they overlap, and not none where they overlap in some text.
pub fn one_least_both()
    ensures { (patterns : List Regex) (rule other : ℕ) → HasLeastBoth patterns rule other }
{}

/// A yacc file and a scanner have at most one report.
pub fn one_lexical_text()
    ensures { (file : File) (scanning : Scanning) → IsOne (IsLexical file scanning) }
{}

/// No yacc file and scanner are without a report.
pub fn some_lexical_text()
    ensures { (file : File) (scanning : Scanning) → IsNotWithout (IsLexical file scanning) }
{}
