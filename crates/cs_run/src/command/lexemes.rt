// The texts of commands that need the lexemes of tokens.

ghost use Rattle.std.specs.Prelude.{◌≡◌, ◌≤◌, length};
ghost use Rattle.cs_io.specs.Uses.{used};
ghost use Rattle.cs_run.specs.Command.Scanned.{CanRenderAsked, NeedsLexemes, WritesPair, WritesRendered, WritesScanned, measure_asked};
ghost use Rattle.cs_run.specs.Ending.Ending.{HasLine};

use crate::command::chains::chains_by;
use crate::command::deep::deep;
use crate::command::endings::{ended, unmade};
use crate::ending::Ending;
use crate::input::Pair;
use crate::writer::{scanner_of, weights_of};
use cs_fan::{Crew, Gate};
use cs_grammar::Weights;
use cs_io::{Halt, Sink};
use cs_scanner::{Automaton, Lexemes, Scanner};
use cs_spell::write_spell;
use cs_texts::RenderWork;
use cs_words::{Options, PairCommand};
use cs_wrong::{Wrong, write_wrong};
use cs_yacc::YaccFile;
use std::alloc::Global;
use std::thread::Threads;

/// What a command asks for by a yacc file and a lex file beside it.
#[derive(Clone, Copy)]
pub(crate) struct Asked<'a> {
    pub(crate) command: PairCommand,
    pub(crate) options: &'a Options,
    pub(crate) yacc: &'a YaccFile,
}

/// Writes the text that a command asks for by a yacc file and a lex file.
pub(crate) fn of_lexemes<R: Threads + Sync, O: Sink, G: Gate + Sync>(
    crew: &Crew<'_, R, G>,
    alloc: Global,
    command: PairCommand,
    options: &Options,
    pair: &Pair,
    out: &mut O,
) -> Ending
    requires needs { NeedsLexemes command }
    ensures writes { WritesPair command options.now pair.now result
        (used O.Sink out.old out.new) }
    ensures told { HasLine result }
{
    let automaton = match Automaton::new(alloc, pair.lex.patterns()) {
        Ok(automaton) => automaton,
        Err(error) => return unmade(error),
    };
    let scanner = scanner_of(&pair.lex, &automaton);
    let asked = Asked {
        command,
        options,
        yacc: &pair.yacc,
    };
    by_scanner(crew, alloc, asked, &scanner, out)
}

// The same by what the lex file's texts are scanned by.
fn by_scanner<R: Threads + Sync, O: Sink, G: Gate + Sync>(
    crew: &Crew<'_, R, G>,
    alloc: Global,
    asked: Asked<'_>,
    scanner: &Scanner<'_>,
    out: &mut O,
) -> Ending
    requires needs { NeedsLexemes asked.command }
    requires few { length scanner.now.kinds.now ≤ 2048 }
    ensures writes { WritesScanned asked.entry scanner.now result (used O.Sink out.old out.new) }
    ensures told { HasLine result }
{
    let tokens = asked.yacc.grammar().tokens();
    let lexemes = match Lexemes::new(alloc, scanner, tokens) {
        Ok(lexemes) => lexemes,
        Err(_) => return Ending::Halted(Halt::Memory),
    };
    let work = RenderWork {
        scanner,
        lexemes: &lexemes,
        separator: asked.options.separator.bytes(),
    };
    match weights_of(alloc, asked.options.weigh, &lexemes, tokens) {
        Ok(weights) => by_work(crew, alloc, asked, &weights, &work, out),
        Err(_) => Ending::Halted(Halt::Memory),
    }
}

// The same by these weights and what renders texts.
fn by_work<'f, R: Threads + Sync, O: Sink, G: Gate + Sync>(
    crew: &Crew<'_, R, G>,
    alloc: Global,
    asked: Asked<'f>,
    weights: &'f Weights,
    work: &'f RenderWork<'f>,
    out: &mut O,
) -> Ending
    requires needs { NeedsLexemes asked.command }
    requires few { length work.now.scanner.now.kinds.now ≤ 2048 }
    requires weights { weights.now ≡ measure_asked asked work.now }
    requires work { CanRenderAsked asked work.now }
    ensures writes { WritesRendered asked.entry work.now result (used O.Sink out.old out.new) }
    ensures told { HasLine result }
{
    let weigh = asked.options.weigh;
    match asked.command {
        PairCommand::Chains => {
            chains_by(crew, alloc, asked.yacc, weights, weigh, Some(work), out)
        }
        PairCommand::Spell => ended(write_spell(alloc, asked.yacc, weights, weigh, work, out)),
        PairCommand::Deep => ended(deep(crew, alloc, asked, weights, work, out)),
        PairCommand::Wrong => {
            let wrong = Wrong {
                yacc: asked.yacc,
                weights,
                weigh,
                chosen: asked.options.slips,
                work,
            };
            ended(write_wrong(crew, alloc, &wrong, out))
        }
        PairCommand::Suite | PairCommand::Lexical => unreachable!(),
    }
}
