// The lines of chains.

ghost use Rattle.std.specs.Prelude.{All, length, option_map};
ghost use Rattle.cs_io.specs.Lines.{Writes};
ghost use Rattle.cs_manifest.specs.Manifest.Lines.{table_lines};
ghost use Rattle.cs_manifest.specs.Output.Names.{AreNamedTokens};
ghost use Rattle.cs_manifest.specs.Output.Putting.{Puts};
ghost use Rattle.cs_yacc.specs.Reading.File.{File};
ghost use Rattle.cs_chain_text.specs.Entries.Text.{chain_words, entry_lines, head_lines};
ghost use Rattle.cs_chain_text.specs.Progress.{CanCount, HaveLexemes, IsCounted, IsNamedEntry, end_with, lexemes_by, lines_of, verdict_words};

use crate::entries::entry::Told;
use crate::entries::tally::Tally;
use cs_chain::{Chain, ChainVerdict};
use cs_io::{Sink, SinkError};
use cs_manifest::{
    LINE_LENGTH, Output, put_count, put_derivation, put_file, put_lexemes, put_text_lines,
    put_yield,
};
use cs_texts::RenderWork;
use cs_yacc::YaccFile;

/// Writes the head.
pub(crate) fn write_head<S: Sink>(
    sink: &mut S,
    file: &YaccFile,
    work: Option<&RenderWork<'_>>,
) -> Result<(), SinkError>
    requires { HaveLexemes file.now work }
    ensures { Writes S.Sink result (head_lines file.now (lexemes_by work.entry)) sink.old sink.new }
{
    let mut line = [0u8; LINE_LENGTH];
    let mut output = Output::new(sink, &mut line, 0);
    output.put(b"conform chains\n");
    put_tables(&mut output, file, work);
    output.end()?;
    Ok(())
}

fn put_tables<S: Sink>(output: &mut Output<'_, S>, file: &YaccFile, work: Option<&RenderWork<'_>>)
    requires { HaveLexemes file.now work }
    ensures { Puts S.Sink (table_lines file.now (lexemes_by work.entry)) output.old output.new }
{
    put_file(output, file);
    if let Some(work) = work {
        put_lexemes(output, file.token_names(), work.lexemes);
    }
}

/// Writes the lines of chains behind those that were counted, and counts them.
pub(crate) fn write_entries<S: Sink>(
    sink: &mut S,
    file: &YaccFile,
    tally: &mut Tally,
    entries: &[Told],
) -> Result<(), SinkError>
    requires named { All (IsNamedEntry file.now) entries.now }
    requires few { CanCount tally.old (length entries.now) }
    ensures text { Writes S.Sink result
        (lines_of file.now tally.old entries.now) sink.old sink.new }
    ensures counted { IsCounted entries.now tally.old tally.new }
{
    let mut line = [0u8; LINE_LENGTH];
    let mut output = Output::new(sink, &mut line, 0);
    put_entries(&mut output, file, tally, entries);
    output.end()?;
    Ok(())
}

fn put_entries<S: Sink>(
    output: &mut Output<'_, S>,
    file: &YaccFile,
    tally: &mut Tally,
    entries: &[Told],
)
    requires named { All (IsNamedEntry file.now) entries.now }
    requires few { CanCount tally.old (length entries.now) }
    ensures lines { Puts S.Sink
        (lines_of file.now tally.old entries.now) output.old output.new }
    ensures counted { IsCounted entries.now tally.old tally.new }
{
    for told in entries {
        tally.count(told);
        put_entry(output, file, tally.goals, told);
    }
}

// Puts `goal N chain P I Q J R`, the verdict's words and the lines below.
fn put_entry<S: Sink>(output: &mut Output<'_, S>, file: &YaccFile, number: u64, told: &Told)
    requires { IsNamedEntry file.now told.now }
    ensures { Puts S.Sink (entry_lines file.now number told.now) output.old output.new }
{
    put_count(output, b"goal ", number);
    put_chain(output, told.chain);
    put_verdict(output, file, &told.verdict, &told.tokens);
    put_text_lines(output, file, told.rendered.as_ref());
}

fn put_chain<S: Sink>(output: &mut Output<'_, S>, chain: Chain)
    ensures { Puts S.Sink (chain_words chain) output.old output.new }
{
    put_count(output, b" chain ", chain.outer as u64);
    put_count(output, b" ", chain.place as u64);
    put_count(output, b" ", chain.middle as u64);
    put_count(output, b" ", chain.spot as u64);
    put_count(output, b" ", chain.inner as u64);
}

// Puts a verdict's words and the lines below, without the last newline.
fn put_verdict<S: Sink>(
    output: &mut Output<'_, S>,
    file: &YaccFile,
    verdict: &ChainVerdict,
    tokens: &[u16],
)
    requires { AreNamedTokens file.now tokens.now }
    ensures { Puts S.Sink (verdict_words file.now verdict.now tokens.now)
        output.old output.new }
{
    match verdict {
        ChainVerdict::Infeasible => output.put(b" infeasible"),
        ChainVerdict::Large => output.put(b" large"),
        ChainVerdict::Feasible { size, derivation } => {
            put_count(output, b" size ", *size as u64);
            put_derivation(output, derivation.rules());
            put_yield(output, file, tokens);
        }
    }
}

/// Writes the end line.
pub(crate) fn write_end<S: Sink>(sink: &mut S, tally: &Tally) -> Result<(), SinkError>
    ensures { Writes S.Sink result (end_with tally.now) sink.old sink.new }
{
    let mut line = [0u8; LINE_LENGTH];
    let mut output = Output::new(sink, &mut line, 0);
    put_count(&mut output, b"end goals ", tally.goals);
    put_count(&mut output, b" feasible ", tally.feasible);
    put_count(&mut output, b" infeasible ", tally.infeasible);
    put_count(&mut output, b" large ", tally.large);
    output.put(b"\n");
    output.end()?;
    Ok(())
}
