// The text of `check`.

ghost use Rattle.std.specs.Prelude.{◌≤◌, ◌≡◌, length};
ghost use Rattle.cs_io.specs.Uses.{used};
ghost use Rattle.cs_run.specs.Command.Scanned.{WritesCheck};
ghost use Rattle.cs_run.specs.Command.Words.{ending_of_check};
ghost use Rattle.cs_run.specs.Ending.Ending.{HasLine};
ghost use Rattle.cs_run.specs.Input.Read.{HasTokensOfItsFile};

use crate::command::endings::unmade;
use crate::ending::Ending;
use crate::input::PairAndText;
use crate::writer::scanner_of;
use cs_check_text::write_check;
use cs_io::{Halt, Sink};
use cs_scanner::Automaton;
use std::alloc::Global;

/// Writes whether a manifest holds what it claims, or its first line that has a fault.
pub(crate) fn checked<O: Sink>(alloc: Global, beside: &PairAndText, out: &mut O) -> Ending
    requires short { length beside.now.text ≤ 67108864 }
    requires tokens { HasTokensOfItsFile beside.now }
    ensures writes { WritesCheck beside.now result (used O.Sink out.old out.new) }
    ensures told { HasLine result }
{
    let automaton = match Automaton::new(alloc, beside.pair.lex.patterns()) {
        Ok(automaton) => automaton,
        Err(error) => return unmade(error),
    };
    let scanner = scanner_of(&beside.pair.lex, &automaton);
    let manifest = beside.text.bytes();
    answered(write_check(alloc, &beside.pair.yacc, &scanner, manifest, out))
}

// How a run ends whose check was written, and whether that says yes; or whose writing stopped.
fn answered(outcome: Result<bool, Halt>) -> Ending
    ensures ending { result ≡ ending_of_check outcome }
    ensures told { HasLine result }
{
    match outcome {
        Ok(true) => Ending::Written,
        Ok(false) => Ending::Denied,
        Err(halt) => Ending::Halted(halt),
    }
}
