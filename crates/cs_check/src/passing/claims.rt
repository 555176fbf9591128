// What a manifest that passes claims.

ghost use Rattle.std.specs.Prelude.{ℕ, List};
ghost use Rattle.cs_lines.specs.Lines.Line.{Line};
ghost use Rattle.cs_check.specs.Passing.Faults.{Checked};
ghost use Rattle.cs_check.specs.Passing.Manifest.{SaysOneList, RightLinesPass, PassingLinesAreRight};
ghost use Rattle.cs_check.specs.Passing.Claims.{RightLinesAreTrue, PassingTextsHaveClaims};

/// A text says one list of lines at most, and passes where these are right: that it passes else cannot be.
pub fn right_lines()
    ensures one { (text : List ℕ) → SaysOneList text }
    ensures pass { (c : Checked) (text : List ℕ) → RightLinesPass c text }
    ensures right { (c : Checked) (text : List ℕ) → PassingLinesAreRight c text }
{}

/// What a manifest that passes claims is so: that it isn't cannot be.
pub fn passing_claims()
    ensures lines { (c : Checked) (lines : List Line) → RightLinesAreTrue c lines }
    ensures texts { (c : Checked) (text : List ℕ) → PassingTextsHaveClaims c text }
{}
