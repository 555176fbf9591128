// The text of `lexical`.

ghost use Rattle.cs_io.specs.Uses.{used};
ghost use Rattle.cs_run.specs.Command.Scanned.{WritesLexical};
ghost use Rattle.cs_run.specs.Ending.Ending.{HasLine};

use crate::command::endings::{ended, unmade};
use crate::ending::Ending;
use crate::input::Pair;
use crate::writer::scanner_of;
use cs_io::Sink;
use cs_lexical::write_lexical;
use cs_scanner::Automaton;
use std::alloc::Global;

/// Writes what each rule of a lex file takes.
pub(crate) fn lexical<O: Sink>(alloc: Global, pair: &Pair, out: &mut O) -> Ending
    ensures writes { WritesLexical pair.now result (used O.Sink out.old out.new) }
    ensures told { HasLine result }
{
    let automaton = match Automaton::new(alloc, pair.lex.patterns()) {
        Ok(automaton) => automaton,
        Err(error) => return unmade(error),
    };
    let scanner = scanner_of(&pair.lex, &automaton);
    ended(write_lexical(alloc, &pair.yacc, &scanner, out))
}
