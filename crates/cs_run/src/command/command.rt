// What the words ask for, done.

ghost use Rattle.std.specs.Prelude.{◌≡◌, ◌≤◌, [], Ok, length};
ghost use Rattle.cs_run.specs.Ending.Ending.{HasLine, Performs};
ghost use Rattle.cs_run.specs.Input.Read.{HasItsTokens, HasShortText, HasTokensOfItsFile, IsFormOf};
ghost use Rattle.cs_io.specs.Uses.{desk_used, used};
ghost use Rattle.cs_run.specs.Command.Carrying.{TakesGrammar, TakesPair, TakesThird, WritesAsked, WritesByGrammar, WritesByPair, WritesByText, WritesOfPair, WritesSummary, WritesSure};
ghost use Rattle.cs_run.specs.Command.Words.{AreBad, AskForNoFiles, KeepsPromisesTo, PerformsFor};
ghost use Rattle.cs_words.specs.Requests.{IsFitting, files_in, plain_request};
ghost use Rattle.cs_words.specs.Words.{texts};
ghost use Rattle.cs_run.specs.Writer.Suite.{IsRules, IsSuite};

use crate::command::chains::chains;
use crate::command::check::checked;
use crate::command::endings::{ended, stopped, unmade};
use crate::command::lexemes::of_lexemes;
use crate::command::lexical::lexical;
use crate::command::text::of_text;
use crate::ending::{Ending, finish};
use crate::input::{Meant, Pair, PairAndText, read_files};
use crate::writer::{scanner_of, write_rules, write_suite, write_summary};
use cs_fan::{Crew, Gate};
use cs_io::{Desk, Sink};
use cs_scanner::Automaton;
use cs_words::{Arguments, Command, GrammarCommand, Options, PairCommand, Request, read_words};
use cs_yacc::YaccFile;
use std::alloc::Global;
use std::thread::Threads;

/// Does what the words ask for, says on `err` what went wrong, and gives the status: 0 where the whole output was written,
/// 1 where the files are refused, 2 where the words aren't accepted, 3 where a file can't be read, 4 where the output can't
/// be written, 5 for want of memory, 6 where it was written and says that a manifest doesn't pass. The words are the
/// program's arguments without its own name: a command, what it takes, and its options. Workers run by `rt`, and enter the
/// gate with the place of an item in its batch.
///
/// What it promises stands on one page, in `specs/Headline.antt` of `cs_run::ending`.
pub fn run<R: Threads + Sync, D: Desk, O: Sink, E: Sink, G: Gate + Sync>(
    rt: &R,
    alloc: Global,
    words: &[String],
    desk: &mut D,
    out: &mut O,
    err: &mut E,
    gate: &G,
) -> u8
    ensures promises { KeepsPromisesTo (texts words.now) (desk_used D.Desk desk.old desk.new)
        (used O.Sink out.old out.new) (used E.Sink err.old err.new) result }
    ensures bad_words_ask_nothing { AreBad (texts words.now) → desk.new ≡ desk.old }
    ensures no_files_ask_nothing { AskForNoFiles (texts words.now) → desk.new ≡ desk.old }
{
    let crew = Crew { rt, gate };
    let ending = perform(&crew, alloc, words, desk, out);
    finish(alloc, ending, err)
}

// Does what the words ask for.
fn perform<R: Threads + Sync, D: Desk, O: Sink, G: Gate + Sync>(
    crew: &Crew<'_, R, G>,
    alloc: Global,
    words: &[String],
    desk: &mut D,
    out: &mut O,
) -> Ending
    ensures performs { PerformsFor (texts words.now) result
        (desk_used D.Desk desk.old desk.new)
        (used O.Sink out.old out.new) }
    ensures told { HasLine result }
    ensures bad_words_ask_nothing { AreBad (texts words.now) → desk.new ≡ desk.old }
    ensures no_files_ask_nothing { AskForNoFiles (texts words.now) → desk.new ≡ desk.old }
{
    match read_words(words) {
        Ok(request) => fulfil(crew, alloc, &request, desk, out),
        Err(bad) => Ending::BadWord { at: bad.at },
    }
}

// Does what a request asks for.
fn fulfil<R: Threads + Sync, D: Desk, O: Sink, G: Gate + Sync>(
    crew: &Crew<'_, R, G>,
    alloc: Global,
    request: &Request<'_>,
    desk: &mut D,
    out: &mut O,
) -> Ending
    requires { IsFitting (plain_request request.now) }
    ensures performs { Performs result (Ok (plain_request request.now))
        (desk_used D.Desk desk.old desk.new)
        (used O.Sink out.old out.new) }
    ensures told { HasLine result }
    ensures no_files_ask_nothing { files_in request.now ≡ [] → desk.new ≡ desk.old }
{
    match read_files(alloc, request, desk) {
        Ok(meant) => carry_out(crew, alloc, request, &meant, out),
        Err(stop) => stopped(stop),
    }
}

// Writes the text that a request asks for by what its files mean.
fn carry_out<R: Threads + Sync, O: Sink, G: Gate + Sync>(
    crew: &Crew<'_, R, G>,
    alloc: Global,
    request: &Request<'_>,
    meant: &Meant,
    out: &mut O,
) -> Ending
    requires form { IsFormOf request.now meant.now }
    requires short { HasShortText meant.now }
    requires tokens { HasItsTokens meant.now }
    ensures writes { WritesAsked request.now meant.now result
        (used O.Sink out.old out.new) }
    ensures told { HasLine result }
{
    match meant {
        Meant::Nothing => match request.arguments {
            Arguments::Seed(seed) => summary(crew, alloc, seed, out),
            Arguments::Files(_) => unreachable!(),
        },
        Meant::Grammar(file) => of_grammar(crew, alloc, request.command, file, out),
        Meant::Pair(pair) => of_pair(crew, alloc, request.command, &request.options, pair, out),
        Meant::Text(beside) => of_third(alloc, request.command, beside, out),
    }
}

// Writes the text that a command asks for by a yacc file.
fn of_grammar<R: Threads + Sync, O: Sink, G: Gate + Sync>(
    crew: &Crew<'_, R, G>,
    alloc: Global,
    command: Command,
    file: &YaccFile,
    out: &mut O,
) -> Ending
    requires takes { TakesGrammar command }
    ensures writes { WritesByGrammar command file.now result
        (used O.Sink out.old out.new) }
    ensures told { HasLine result }
{
    match command {
        Command::OfGrammar(GrammarCommand::Rules) => rules(crew, alloc, file, out),
        Command::OfGrammar(GrammarCommand::Chains) => chains(crew, alloc, file, out),
        Command::OfPair(_) | Command::Member | Command::Check | Command::Gen => unreachable!(),
    }
}

// Writes the text that a command asks for by a yacc file and a lex file.
fn of_pair<R: Threads + Sync, O: Sink, G: Gate + Sync>(
    crew: &Crew<'_, R, G>,
    alloc: Global,
    command: Command,
    options: &Options,
    pair: &Pair,
    out: &mut O,
) -> Ending
    requires takes { TakesPair command }
    ensures writes { WritesByPair command options.now pair.now result
        (used O.Sink out.old out.new) }
    ensures told { HasLine result }
{
    match command {
        Command::OfPair(PairCommand::Suite) => suite(crew, alloc, options, pair, out),
        Command::OfPair(PairCommand::Lexical) => lexical(alloc, pair, out),
        Command::OfPair(PairCommand::Chains) => {
            of_lexemes(crew, alloc, PairCommand::Chains, options, pair, out)
        }
        Command::OfPair(PairCommand::Spell) => {
            of_lexemes(crew, alloc, PairCommand::Spell, options, pair, out)
        }
        Command::OfPair(PairCommand::Deep) => {
            of_lexemes(crew, alloc, PairCommand::Deep, options, pair, out)
        }
        Command::OfPair(PairCommand::Wrong) => {
            of_lexemes(crew, alloc, PairCommand::Wrong, options, pair, out)
        }
        Command::OfGrammar(_) | Command::Member | Command::Check | Command::Gen => unreachable!(),
    }
}

// Writes the text that a command asks for by a yacc file, a lex file and a third file.
fn of_third<O: Sink>(alloc: Global, command: Command, beside: &PairAndText, out: &mut O) -> Ending
    requires takes { TakesThird command }
    requires short { length beside.now.text ≤ 67108864 }
    requires tokens { HasTokensOfItsFile beside.now }
    ensures writes { WritesByText command beside.now result (used O.Sink out.old out.new) }
    ensures told { HasLine result }
{
    match command {
        Command::Member => of_text(alloc, beside, out),
        Command::Check => checked(alloc, beside, out),
        Command::OfGrammar(_) | Command::OfPair(_) | Command::Gen => unreachable!(),
    }
}

// Writes the rule goals of a yacc file.
fn rules<R: Threads + Sync, O: Sink, G: Gate + Sync>(
    crew: &Crew<'_, R, G>,
    alloc: Global,
    file: &YaccFile,
    out: &mut O,
) -> Ending
    ensures writes { WritesSure (IsRules file.now) result
        (used O.Sink out.old out.new) }
    ensures told { HasLine result }
{
    ended(write_rules(crew, alloc, file, out))
}

// Writes the suite of a yacc file and a lex file.
fn suite<R: Threads + Sync, O: Sink, G: Gate + Sync>(
    crew: &Crew<'_, R, G>,
    alloc: Global,
    options: &Options,
    pair: &Pair,
    out: &mut O,
) -> Ending
    ensures writes { WritesOfPair pair.now (IsSuite pair.now options.now) result
        (used O.Sink out.old out.new) }
    ensures told { HasLine result }
{
    let automaton = match Automaton::new(alloc, pair.lex.patterns()) {
        Ok(automaton) => automaton,
        Err(error) => return unmade(error),
    };
    let scanner = scanner_of(&pair.lex, &automaton);
    match write_suite(crew, alloc, &pair.yacc, &scanner, options, out) {
        Ok(_) => Ending::Written,
        Err(halt) => Ending::Halted(halt),
    }
}

// Writes the summary of a number.
fn summary<R: Threads + Sync, O: Sink, G: Gate + Sync>(
    crew: &Crew<'_, R, G>,
    alloc: Global,
    seed: u64,
    out: &mut O,
) -> Ending
    ensures writes { WritesSummary seed result (used O.Sink out.old out.new) }
    ensures told { HasLine result }
{
    ended(write_summary(crew, alloc, seed, out))
}
