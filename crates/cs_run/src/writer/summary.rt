// The writer of `gen`.

ghost use Rattle.std.specs.Prelude.{IfOk, OnErr, OnOk, string_bytes};
ghost use Rattle.cs_run.specs.Ending.Summary.{IsSummary, summary_options};
ghost use Rattle.cs_run.specs.Input.Refusal.{HasManyStates};
ghost use Rattle.cs_run.specs.Writer.Suite.{IsSuite, IsSuiteBy};
ghost use Rattle.cs_run.specs.Writer.Summary.{AreShort, HasSuite, HasSuiteBy, HasNumberMore, IsLineOf};
ghost use Rattle.cs_io.specs.declared.halt.Halt.TheVariants.{Failed};
ghost use Rattle.cs_writing.specs.Writing.Writing.{CountsOfAll, HasNoCases};
ghost use Rattle.cs_io.specs.Asked.{IsCalmForAll, MetFault, MetNone, Stopped, TookOne};
ghost use Rattle.cs_deep.specs.Membership.{TookSomeFront};
ghost use Rattle.cs_scanner.specs.Scan.Compared.{scanning};

use crate::input::{Pair, Stop, judge_pair};
use crate::writer::scanner::scanner_of;
use crate::writer::suite::write_suite;
use cs_choices::Format;
use cs_fan::{Crew, Gate};
use cs_gen::{Generated, make};
use cs_io::{Halt, NullSink, Sink, write_all};
use cs_manifest::Counts;
use cs_scanner::{Automaton, AutomatonError, Scanner};
use cs_words::Options;
use cs_yacc::YaccFile;
use std::alloc::{AllocError, Global};
use std::thread::Threads;

/// Writes the summary of a number: the lengths of the two files that stand for it, and the counts
/// and the length of their manifest by default options, in the first format.
pub fn write_summary<R: Threads + Sync, O: Sink, G: Gate + Sync>(
    crew: &Crew<'_, R, G>,
    alloc: Global,
    seed: u64,
    out: &mut O,
) -> Result<(), Halt>
    ensures ok { OnOk result (TookOne O.Sink (IsSummary seed) out.old out.new) }
    ensures part { OnErr result (TookSomeFront O.Sink (IsSummary seed) out.old out.new) }
    ensures no_fault { OnOk result (MetNone O.Sink out.old out.new) }
    ensures failed { Stopped Failed result → MetFault O.Sink out.old out.new }
    ensures room { IsCalmForAll O.Sink (IsSummary seed) out.old out.new }
{
    let line = summary(crew, alloc, seed)?;
    write_all(out, line.as_bytes())?;
    Ok(())
}

// The summary of a number. The readers refuse neither of its files.
fn summary<R: Threads + Sync, G: Gate + Sync>(
    crew: &Crew<'_, R, G>,
    alloc: Global,
    seed: u64,
) -> Result<String, AllocError>
    ensures { IfOk result (λ line. IsSummary seed (string_bytes line)) }
{
    let files = make(alloc, seed)?;
    let pair = match judge_pair(alloc, &files.yacc, &files.lex) {
        Ok(pair) => pair,
        Err(Stop::Memory) => return Err(AllocError),
        Err(Stop::Refused(_)) => unreachable!(),
        Err(Stop::NoFile(_)) => unreachable!(),
    };
    let counts = count(crew, alloc, pair)?;
    line(alloc, seed, &files, counts)
}

// The counts of the manifest of a pair by default options, in the first format. Its automaton hasn't too many states.
fn count<R: Threads + Sync, G: Gate + Sync>(
    crew: &Crew<'_, R, G>,
    alloc: Global,
    pair: Pair,
) -> Result<Counts, AllocError>
    requires { ¬ HasManyStates pair.lex }
    ensures some { OnOk result (HasSuite pair) }
    ensures counts { IfOk result (CountsOfAll (IsSuite pair summary_options)) }
    ensures first { IfOk result HasNoCases }
{
    let automaton = match Automaton::new(alloc, pair.lex.patterns()) {
        Ok(automaton) => automaton,
        Err(AutomatonError::Memory) => return Err(AllocError),
        Err(AutomatonError::TooManyStates { .. }) => unreachable!(),
    };
    let scanner = scanner_of(&pair.lex, &automaton);
    count_by(crew, alloc, &pair.yacc, &scanner)
}

// The same of a yacc file, with texts for this scanner. The lines of the manifest are kept nowhere.
fn count_by<R: Threads + Sync, G: Gate + Sync>(
    crew: &Crew<'_, R, G>,
    alloc: Global,
    yacc: &YaccFile,
    scanner: &Scanner<'_>,
) -> Result<Counts, AllocError>
    ensures some { OnOk result (HasSuiteBy yacc.now (scanning scanner.now)) }
    ensures counts { IfOk result
        (CountsOfAll (IsSuiteBy yacc.now (scanning scanner.now) summary_options)) }
    ensures first { IfOk result HasNoCases }
{
    let mut sink = NullSink::new();
    let options = Options {
        format: Format::One,
        ..Options::defaults()
    };
    match write_suite(crew, alloc, yacc, scanner, &options, &mut sink) {
        Ok(counts) => Ok(counts),
        Err(Halt::Memory) => Err(AllocError),
        Err(Halt::Failed) => unreachable!(),
    }
}

// The line of a number, of its two files, and of the counts of their manifest.
fn line(alloc: Global, seed: u64, files: &Generated, counts: Counts) -> Result<String, AllocError>
    ensures line { IfOk result (λ line. IsLineOf seed files.now counts (string_bytes line)) }
    ensures short { AreShort counts }
{
    let mut line = String::new(alloc);
    put(&mut line, "gen ", u128::from(seed))?;
    put(&mut line, " yacc ", files.yacc.len() as u128)?;
    put(&mut line, " lex ", files.lex.len() as u128)?;
    put(&mut line, " goals ", u128::from(counts.goals))?;
    put(&mut line, " feasible ", u128::from(counts.feasible))?;
    put(&mut line, " infeasible ", u128::from(counts.infeasible))?;
    put(&mut line, " large ", u128::from(counts.large))?;
    put(&mut line, " negatives ", u128::from(counts.negatives))?;
    put(&mut line, " bytes ", counts.bytes)?;
    line.push_str("\n")?;
    Ok(line)
}

// A number behind its word.
fn put(line: &mut String, word: &str, number: u128) -> Result<(), AllocError>
    ensures { OnOk result (HasNumberMore word.now number line.old line.new) }
{
    write!(line, "{word}{number}")
}
