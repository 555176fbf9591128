// Laws of layouts.

ghost use Rattle.std.specs.Prelude.{◌≡◌, ℕ, List};
ghost use Rattle.cs_bytes.specs.Limits.{most_bytes};
ghost use Rattle.cs_lex.specs.Layout.Laws as spec;
ghost use Rattle.cs_lex.specs.Layout.Patterns.{IsNamedByText};

use crate::layout::MOST_BYTES;

/// A text has one layout.
pub fn one_layout()
    ensures { (bytes : List ℕ) → spec.HasOneLayout bytes }
{}

/// Layout of a text stops at one offset, for one reason.
pub fn one_stop()
    ensures { (bytes : List ℕ) → spec.StopsInOneWay bytes }
{}

/// No text both has a layout and stops.
pub fn stopped_has_no_layout()
    ensures { (bytes : List ℕ) → spec.HasNoLayoutWhereItStops bytes }
{}

/// In a layout no name is defined again.
pub fn new_names()
    ensures { (bytes : List ℕ) → spec.DefinesNoNameAgain bytes }
{}

/// The definitions section ends before one offset, by its lines' forms; with new names it ends there too.
pub fn one_end()
    ensures one { (bytes : List ℕ) → spec.HasOneEnd bytes }
    ensures new_names { (bytes : List ℕ) → spec.EndsWithNewNames bytes }
{}

/// A named part of a bracket, whose size is counted, is `[`, a mark, a name, the mark again and `]`, as patterns take it.
pub fn named_parts()
    ensures { (text : List ℕ) → IsNamedByText text }
{}

/// The limit of the definitions is the code's.
pub fn limits()
    ensures { MOST_BYTES ≡ most_bytes }
{}
