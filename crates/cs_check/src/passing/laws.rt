// The laws of faults.

ghost use Rattle.std.specs.Prelude.{ℕ, List};
ghost use Rattle.cs_check.specs.Passing.Faults.{Checked};
ghost use Rattle.cs_check.specs.Passing.Passing.{FailsOnce, FailsOrPasses};

/// A manifest fails at one line at most, with one lowest fault; and a manifest that fails doesn't pass.
pub fn one_failure()
    ensures one { (c : Checked) (text : List ℕ) → FailsOnce c text }
    ensures either { (c : Checked) (text : List ℕ) → FailsOrPasses c text }
{}
