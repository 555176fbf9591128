// The law of suites and the checker.

ghost use Rattle.std.specs.Prelude.{ℕ, List};
ghost use Rattle.cs_yacc.specs.Reading.File.{File};
ghost use Rattle.cs_yacc.specs.Reading.Reading.{IsYaccFile};
ghost use Rattle.cs_accord.specs.Accord.{SuitesPass};

/// Each manifest in the second format, of a yacc file that is accepted, passes the checker: whatever its scanner, its criteria,
/// its operators, its bases, the negatives that are kept, and what is weighed.
pub fn suites_pass()
    ensures { (bytes : List ℕ) (file : File) → IsYaccFile bytes file → SuitesPass file }
{}
