// Laws of numbered classes.

ghost use Rattle.std.specs.Prelude.{ℕ};
ghost use Rattle.cs_pattern_parts.specs.Tree.Pattern.{Regex};
ghost use Rattle.cs_scanner.specs.Automaton.Numbered.{AreMatchedByNumbers};

/// Each word of a pattern's numbered classes is, as a list of numbers, one that the pattern matches when each class is read as its
/// number.
pub fn numbered_words()
    ensures { (rule from : ℕ) (r : Regex) → AreMatchedByNumbers rule from r }
{}
