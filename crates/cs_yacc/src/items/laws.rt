// Laws of reading items.

ghost use Rattle.std.specs.Prelude.{◌≡◌, ℕ, List};
ghost use Rattle.cs_yacc.specs.Items.Items.{Placed, Reads, items_of};
ghost use Rattle.cs_bytes.specs.Limits.{most_bytes};
ghost use Rattle.cs_yacc.specs.Items.Stops.{StopsThere};
ghost use Rattle.cs_yacc.specs.Items.Table.{IsTaken, IsStuck};

use crate::items::MOST_BYTES;

/// A text is read into one list of items.
pub fn one_reading()
    ensures { (bytes : List ℕ) (ps qs : List Placed)
        → Reads bytes ps → Reads bytes qs → ps ≡ qs }
{}

/// Reading of a text stops at one offset.
pub fn one_stop()
    ensures { (bytes : List ℕ) (a b : ℕ)
        → StopsThere bytes a → StopsThere bytes b → a ≡ b }
{}

/// No text is both read and not read to its end.
pub fn stopped_is_not_read()
    ensures { (bytes : List ℕ) (at : ℕ) (ps : List Placed)
        → StopsThere bytes at → Reads bytes ps → ⊥ }
{}

/// The table stops at one offset.
pub fn one_stuck()
    ensures { (n : ℕ) (ps : List Placed) (a b : ℕ)
        → IsStuck n ps a → IsStuck n ps b → a ≡ b }
{}

/// The table doesn't both stop and take all items.
pub fn stuck_is_not_taken()
    ensures { (n : ℕ) (ps : List Placed) (at : ℕ)
        → IsStuck n ps at → IsTaken (items_of ps) → ⊥ }
{}

/// The constant is the definition's.
pub fn byte_limit()
    ensures { MOST_BYTES ≡ most_bytes }
{}
