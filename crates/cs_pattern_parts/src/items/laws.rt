// Laws of sets of bytes and of items.

ghost use Rattle.std.specs.Prelude.{◌≡◌, ◌↔◌, ℕ, List, true, Contains};
ghost use Rattle.cs_pattern_parts.specs.declared.items.front.Stop.{Stop};
ghost use Rattle.cs_pattern_parts.specs.Items.Items.{Item};
ghost use Rattle.cs_pattern_parts.specs.Items.Members.{has, IsByteSet, HaveSameMembers};
ghost use Rattle.cs_pattern_parts.specs.Items.Spelling.{Spells, IsStoppedBy};

/// A set has a byte exactly where its list contains it.
pub fn has_is_contains()
    ensures { (set : List ℕ) (byte : ℕ) → (has set byte ≡ true) ↔ Contains set byte }
{}

/// Two sets with the same members are one list.
pub fn one_set()
    ensures { (s t : List ℕ) → IsByteSet s → IsByteSet t → HaveSameMembers s t → s ≡ t }
{}

/// A text spells at most one item in front, of one size.
pub fn one_item()
    ensures item { (text : List ℕ) (n m : ℕ) (i j : Item)
        → Spells text n i → Spells text m j → i ≡ j }
    ensures size { (text : List ℕ) (n m : ℕ) (i j : Item)
        → Spells text n i → Spells text m j → n ≡ m }
{}

/// Where a text spells no item in front, there is one cause.
pub fn one_stop()
    ensures { (text : List ℕ) (s t : Stop)
        → IsStoppedBy text s → IsStoppedBy text t → s ≡ t }
{}

/// A text that spells an item in front is not stopped.
pub fn stopped_spells_nothing()
    ensures { (text : List ℕ) (s : Stop) (n : ℕ) (i : Item)
        → IsStoppedBy text s → Spells text n i → ⊥ }
{}
