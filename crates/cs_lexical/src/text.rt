// The text of `lexical`, written to an output.

ghost use Rattle.std.specs.Prelude.{◌≡◌, ◌≤◌, OnErr, OnOk, length};
ghost use Rattle.cs_io.specs.Asked.{IsCalmForAll, MetFault, MetNone, Stopped, TookFront, TookOne};
ghost use Rattle.cs_io.specs.Lines.{Writes};
ghost use Rattle.cs_io.specs.declared.halt.Halt.TheVariants.{Failed};
ghost use Rattle.cs_lexical.specs.Least.{rules_of};
ghost use Rattle.cs_lexical.specs.Lines.{IsLexicalOf, lexical_lines};

use crate::laws::{one_lexical_text, some_lexical_text};
use crate::lexical::Lexical;
use crate::put::put_lexical;
use cs_io::{Halt, Sink, SinkError, Text, write_text};
use cs_manifest::{LINE_LENGTH, Output};
use cs_pattern_parts::Kind;
use cs_scanner::Scanner;
use cs_yacc::YaccFile;
use std::alloc::Global;

/// The report of a scanner's rules, as a text that can be told to a sink. The file names the tokens of kinds.
#[derive(Clone, Copy)]
pub struct LexicalText<'a> {
    pub file: &'a YaccFile,
    pub scanner: Scanner<'a>,
}

impl Text for LexicalText<'_> {
    ghost use Rattle.std.specs.Prelude.{◌≤◌, length};
    ghost use Rattle.cs_lexical.specs.Lines.{IsLexicalOf};

    ghost ready = { λ report. length report.scanner.kinds.now ≤ 2048 };

    ghost is = { λ report text. IsLexicalOf report.file.now report.scanner text };

    fn tell<S: Sink>(&self, alloc: Global, sink: &mut S) -> Result<(), Halt> {
        let rules = self.scanner.kinds.len() as u16;
        let lexical = Lexical::new(alloc, self.scanner.automaton, rules)?;
        tell_lines(sink, self.file, self.scanner.kinds, &lexical)?;
        Ok(())
    }
}

// Tells the lines to the sink.
fn tell_lines<S: Sink>(
    sink: &mut S,
    file: &YaccFile,
    kinds: &[Kind],
    lexical: &Lexical,
) -> Result<(), SinkError>
    requires { rules_of lexical.now ≤ 2048 }
    ensures { Writes S.Sink result (lexical_lines file.now kinds.now lexical.now)
        sink.old sink.new }
{
    let mut line = [0u8; LINE_LENGTH];
    let mut output = Output::new(sink, &mut line, 0);
    put_lexical(&mut output, file, kinds, lexical);
    output.end()?;
    Ok(())
}

/// Writes what each of the scanner's rules wins, and in what each two of them overlap. The file names the tokens of kinds.
pub fn write_lexical<O: Sink>(
    alloc: Global,
    file: &YaccFile,
    scanner: &Scanner<'_>,
    out: &mut O,
) -> Result<(), Halt>
    requires { length scanner.now.kinds.now ≤ 2048 }
    ensures ok { OnOk result
        (TookOne O.Sink (IsLexicalOf file.now scanner.now) out.old out.new) }
    ensures part { OnErr result
        (TookFront O.Sink (IsLexicalOf file.now scanner.now) out.old out.new) }
    ensures no_fault { OnOk result (MetNone O.Sink out.old out.new) }
    ensures failed { Stopped Failed result → MetFault O.Sink out.old out.new }
    ensures room { IsCalmForAll O.Sink (IsLexicalOf file.now scanner.now) out.old out.new }
{
    one_lexical_text();
    some_lexical_text();
    let text = LexicalText {
        file,
        scanner: *scanner,
    };
    write_text(alloc, &text, out)
}
