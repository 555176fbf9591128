// Laws of matching.

ghost use Rattle.std.specs.Prelude.{◌≤◌, ℕ};
ghost use Rattle.cs_pattern_parts.specs.declared.items.item.Repetition.TheVariants.{Optional, Exactly, AtLeast, Between};
ghost use Rattle.cs_pattern_parts.specs.Tree.Counting.{AreSame, HasBytes, IsBetween, IsRepeated, Times};
ghost use Rattle.cs_pattern_parts.specs.Tree.Pattern.{Regex, Join, Either, Many, Parts, Matches, Repeats, alone_or};
ghost use Rattle.cs_pattern_parts.specs.Tree.Repeated.{repeated};
ghost use Rattle.cs_pattern_parts.specs.Tree.Scannable.{HasByteClasses, HasNoEmptyClass, HasNoEmptyEither, MatchesBytesAlone, MatchesSomeText};

/// A many matches a list that falls into any number of parts, each of which has a byte.
pub fn non_empty_parts()
    ensures { (r : Regex) → AreSame (Matches (Many r)) (Repeats (HasBytes (Matches r))) }
{}

/// A join of one part, or an either of one, matches what the part does.
pub fn alone()
    ensures join { (rs : Parts) → AreSame (Matches (alone_or Join rs)) (Matches (Join rs)) }
    ensures either { (rs : Parts) → AreSame (Matches (alone_or Either rs)) (Matches (Either rs)) }
{}

/// `r?` matches what is at most one list that r matches.
pub fn optional_counts()
    ensures { (r : Regex) → IsRepeated (repeated r Optional) (IsBetween 0 1) r }
{}

/// `r{n}` matches what is n lists that r matches, one after another.
pub fn exact_counts()
    ensures { (r : Regex) (n : ℕ)
        → AreSame (Matches (repeated r (Exactly n))) (Times (Matches r) n) }
{}

/// `r{n,}` matches what is n or more lists that r matches, one after another.
pub fn least_counts()
    ensures { (r : Regex) (n : ℕ) → IsRepeated (repeated r (AtLeast n)) (λ k. n ≤ k) r }
{}

/// `r{n,m}` matches what is n to m lists that r matches, one after another.
pub fn between_counts()
    ensures { (r : Regex) (n m : ℕ)
        → n ≤ m → IsRepeated (repeated r (Between n m)) (IsBetween n m) r }
{}

/// A pattern without empty classes and eithers matches some list of bytes.
pub fn some_text()
    ensures { (r : Regex) → HasNoEmptyClass r → HasNoEmptyEither r → MatchesSomeText r }
{}

/// A pattern whose classes have bytes alone matches lists of bytes alone.
pub fn bytes_alone()
    ensures { (r : Regex) → HasByteClasses r → MatchesBytesAlone r }
{}
