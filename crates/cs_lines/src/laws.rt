// The law of lines.

ghost use Rattle.std.specs.Prelude.{ℕ, List};
ghost use Rattle.cs_lines.specs.Lines.Texts.{SaysOne};

/// Bytes say one line at most: from a line it can be told what it says.
pub fn one_line()
    ensures { (bytes : List ℕ) → SaysOne bytes }
{}
