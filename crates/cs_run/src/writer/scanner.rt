// What a lex file's texts are scanned by.

ghost use Rattle.std.specs.Prelude.{◌≡◌};
ghost use Rattle.cs_run.specs.Ending.Files.{scanning_of};
ghost use Rattle.cs_scanner.specs.Automaton.Machine.{patterns_of};
ghost use Rattle.cs_scanner.specs.Scan.Compared.{scanning};

use cs_lex::LexFile;
use cs_scanner::{Automaton, Scanner};

/// The scanner of a lex file, by the automaton of its patterns.
pub(crate) fn scanner_of<'a>(lex: &'a LexFile, automaton: &'a Automaton<'a>) -> Scanner<'a>
    requires { patterns_of automaton.now ≡ lex.now.patterns }
    ensures scanning { scanning result ≡ scanning_of lex.now }
{
    Scanner {
        automaton,
        kinds: lex.kinds(),
        literals: lex.literals(),
    }
}
