// What users may change of a manifest that passes.

ghost use Rattle.std.specs.Prelude.{ℕ, List};
ghost use Rattle.cs_check.specs.Passing.Faults.{Checked};
ghost use Rattle.cs_check.specs.Passing.Changes.{TextsMayChange, NegativesMayGo};

/// A manifest passes whose lines are those of one that passes, but for texts that scan to the same tokens.
pub fn texts_may_change()
    ensures { (c : Checked) (text other : List ℕ) → TextsMayChange c text other }
{}

/// A manifest passes whose lines are those of one that passes, but for negatives that were taken out, with the numbers of the
/// others and their count put right.
pub fn negatives_may_go()
    ensures { (c : Checked) (text other : List ℕ) → NegativesMayGo c text other }
{}
