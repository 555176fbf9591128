// Laws of reading.

ghost use Rattle.std.specs.Prelude.{◌≡◌, ℕ, List};
ghost use Rattle.cs_bytes.specs.Limits.{most_bytes};
ghost use Rattle.cs_pattern_parts.specs.Items.Items.{Placed};
ghost use Rattle.cs_pattern.specs.Operations.Definitions.{Definition};
ghost use Rattle.cs_pattern.specs.Text.Answers.{IsPatternOf, IsFault};
ghost use Rattle.cs_pattern.specs.Text.Checking.{AreAccepted};
ghost use Rattle.cs_pattern.specs.Text.Laws.{HaveBytes, HaveVerdict, Exclude, HasAtMostOne, HasDerivation, HasNoTree, HasNotBoth, HasOne, HasPatternOrFault, IsScannableText, IsReadOrStops, IsRefusal, IsStop};
ghost use Rattle.cs_pattern.specs.Text.Substitution.{IsTreeOf, SpellsTree};
ghost use Rattle.cs_pattern.specs.Text.Table.{Reads};
ghost use Rattle.cs_pattern.specs.Text.Uses.{Reaches};

use crate::text::MOST_BYTES;

/// A text is read into one list of items, or reading stops at one place for one reason, and not both.
pub fn one_reading()
    ensures items { (bytes : List ℕ) → HasAtMostOne (Reads bytes) }
    ensures stop { (bytes : List ℕ) → HasAtMostOne (IsStop bytes) }
    ensures either { (bytes : List ℕ) → Exclude (Reads bytes) (IsStop bytes) }
{}

/// A text has at most one pattern: its items have one derivation by the grammar.
pub fn one_pattern()
    ensures { (bytes : List ℕ) → HasAtMostOne (SpellsTree bytes) }
{}

/// A text that is read to its end has a derivation by the grammar.
pub fn has_derivation()
    ensures { (bytes : List ℕ) (xs : List Placed) → Reads bytes xs → HasDerivation xs }
{}

/// With definitions put in for its names a text has at most one tree, and at most one pattern or one fault.
pub fn one_answer()
    ensures tree { (ds : List Definition) (text : List ℕ) → HasAtMostOne (IsTreeOf ds text) }
    ensures pattern { (ds : List Definition) (text : List ℕ)
        → HasAtMostOne (IsPatternOf ds text) }
    ensures fault { (ds : List Definition) (text : List ℕ) → HasAtMostOne (IsFault text ds) }
    ensures either { (ds : List Definition) (text : List ℕ) → HasNotBoth ds text }
{}

/// A text is read to its end, or reading stops.
pub fn reads_or_stops()
    ensures { (bytes : List ℕ) → IsReadOrStops bytes }
{}

/// Where all definitions are accepted, each text has a pattern or a fault.
pub fn has_answer()
    ensures { (ds : List Definition) (text : List ℕ)
        → AreAccepted ds → HasPatternOrFault ds text }
{}

/// A definition that reaches itself has no tree with definitions put in, and so no text that uses it has one.
pub fn no_tree_in_a_cycle()
    ensures { (ds : List Definition) (i : ℕ) → Reaches ds i i → HasNoTree ds i }
{}

/// Definitions are accepted, or refused at one index with one fault, and not both.
pub fn one_refusal()
    ensures refusal { (ds : List Definition) → HasAtMostOne (IsRefusal ds) }
    ensures either { (ds : List Definition) → AreAccepted ds → HasOne (IsRefusal ds) → ⊥ }
{}

/// Definitions are accepted or refused.
pub fn definitions_accepted_or_refused()
    ensures { (ds : List Definition) → HaveVerdict ds }
{}

/// An automaton can be made of the pattern of a text, where the text and the texts of the definitions are bytes.
pub fn scannable_pattern()
    ensures { (ds : List Definition) (text : List ℕ)
        → HaveBytes ds text → IsScannableText ds text }
{}

/// The limit of the definitions is the code's.
pub fn byte_limit()
    ensures { MOST_BYTES ≡ most_bytes }
{}
