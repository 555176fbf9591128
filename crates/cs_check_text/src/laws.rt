// Laws of the text.

ghost use Rattle.std.specs.Prelude.{ℕ, List};
ghost use Rattle.cs_io.specs.Asked.{IsNotWithout, IsOne};
ghost use Rattle.cs_scanner.specs.Scan.Scan.{Scanning};
ghost use Rattle.cs_yacc.specs.Reading.File.{File};
ghost use Rattle.cs_check_text.specs.Text.{DeniesWhereItFails, IsCheckText};

/// A manifest has at most one text of its check.
pub fn one_check_text()
    ensures { (f : File) (s : Scanning) (manifest : List ℕ) → IsOne (IsCheckText f s manifest) }
{}

/// No manifest is without a text of its check.
pub fn some_check_text()
    ensures { (f : File) (s : Scanning) (manifest : List ℕ)
        → IsNotWithout (IsCheckText f s manifest) }
{}

/// Such a text says no exactly where the manifest has a line with a fault.
pub fn denial_is_failure()
    ensures { (f : File) (s : Scanning) (manifest : List ℕ) → DeniesWhereItFails f s manifest }
{}
