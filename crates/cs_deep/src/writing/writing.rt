// The text of `deep`, written as it is made.

ghost use Rattle.std.specs.Prelude.{◌≡◌, ◌+◌, [], All, OnErr, OnOk};
ghost use Rattle.cs_deep.specs.Writing.Progress.{CanEdit, CanTell, CountsBases, CountsEdits, HasFew};
ghost use Rattle.cs_deep.specs.Writing.Progress.{IsBasesText, IsDeepOf, IsReady, PutsEditsText, most_by};
ghost use Rattle.cs_deep.specs.Writing.Tally.{no_edits};
ghost use Rattle.cs_writing.specs.Writing.Mutants.{IsEditable};
ghost use Rattle.cs_io.specs.Asked.{IsCalmForAll, LentCalm, LentOne, LentPart};
ghost use Rattle.cs_io.specs.Asked.{MetFault, MetNone, Stopped, TookFront, TookOne};
ghost use Rattle.cs_io.specs.BufferedSink.{buffered_room, lent_name, lent_sink, waiting_bytes};
ghost use Rattle.cs_io.specs.Stops.{PutsOne};
ghost use Rattle.cs_io.specs.declared.halt.Halt.TheVariants.{Failed};

use crate::edits::{Candidates, bases_of, next_batch};
use crate::writing::judging::{DeepWork, judge_batch};
use crate::writing::laws::{one_deep, some_deep};
use crate::writing::lines::{write_edits, write_end, write_head, write_opening};
use crate::writing::tally::Tally;
use cs_choices::Criteria;
use cs_fan::{Crew, Gate};
use cs_io::{BufferedSink, Halt, Sink};
use cs_manifest::one_text;
use cs_member::Recognizer;
use cs_verdicts::{Positives, Tables};
use cs_writing::{Bases, Means};
use cs_yacc::YaccFile;
use std::alloc::Global;
use std::thread::Threads;

// So many bytes go to the output in one piece.
const PIECE: usize = 524_288;

/// What the text of `deep` is made by: a yacc file, the criteria that goals are taken by, the tables of its grammar, and what
/// its edits and their texts are made by.
#[derive(Clone, Copy)]
pub struct Deep<'a> {
    pub yacc: &'a YaccFile,
    pub criteria: Criteria,
    pub tables: &'a Tables<'a>,
    pub means: Means<'a>,
}

// A base with its number.
#[derive(Clone, Copy)]
struct Base<'b> {
    number: u32,
    tokens: &'b [u16],
}

/// Writes the text of `deep` to the output, each batch of edits as it is classed.
pub fn write_deep<R: Threads + Sync, O: Sink, G: Gate + Sync>(
    crew: &Crew<'_, R, G>,
    alloc: Global,
    deep: &Deep<'_>,
    out: &mut O,
) -> Result<(), Halt>
    requires { IsReady deep.now }
    ensures ok { OnOk result (TookOne O.Sink (IsDeepOf deep.now) out.old out.new) }
    ensures part { OnErr result (TookFront O.Sink (IsDeepOf deep.now) out.old out.new) }
    ensures no_fault { OnOk result (MetNone O.Sink out.old out.new) }
    ensures failed { Stopped Failed result → MetFault O.Sink out.old out.new }
    ensures room { IsCalmForAll O.Sink (IsDeepOf deep.now) out.old out.new }
{
    let mut buffer = Vec::with_capacity(alloc, PIECE)?;
    let mut sink = BufferedSink::new(out, &mut buffer);
    write_through(crew, alloc, deep, &mut sink)
}

// Writes the text, and then what waits.
fn write_through<R: Threads + Sync, O: Sink, G: Gate + Sync>(
    crew: &Crew<'_, R, G>,
    alloc: Global,
    deep: &Deep<'_>,
    sink: &mut BufferedSink<'_, '_, O>,
) -> Result<(), Halt>
    requires ready { IsReady deep.now }
    requires waiting { waiting_bytes sink.old ≡ [] }
    requires spare { buffered_room O.room sink.old ≡ O.room (lent_sink sink.old) + 1 }
    ensures lent { lent_name sink.new ≡ lent_name sink.old }
    ensures ok { OnOk result (LentOne O.Sink (IsDeepOf deep.now) sink.old sink.new) }
    ensures part { OnErr result (LentPart O.Sink (IsDeepOf deep.now) sink.old sink.new) }
    ensures no_fault { OnOk result (MetNone O.Sink (lent_sink sink.old) (lent_sink sink.new)) }
    ensures failed { Stopped Failed result
        → MetFault O.Sink (lent_sink sink.old) (lent_sink sink.new) }
    ensures room { LentCalm O.Sink (IsDeepOf deep.now) sink.old sink.new }
{
    one_deep();
    some_deep();
    tell(crew, alloc, deep, sink)?;
    sink.flush()?;
    Ok(())
}

fn tell<R: Threads + Sync, S: Sink, G: Gate + Sync>(
    crew: &Crew<'_, R, G>,
    alloc: Global,
    deep: &Deep<'_>,
    sink: &mut S,
) -> Result<(), Halt>
    requires { IsReady deep.now }
    ensures text { PutsOne S.Sink (IsDeepOf deep.now) sink.old sink.new result }
    ensures lent { S.lent sink.new ≡ S.lent sink.old }
{
    one_text();
    let grammar = deep.yacc.grammar();
    let recognizer = Recognizer::new(alloc, grammar)?;
    let mut positives = Positives::new(deep.tables, deep.criteria);
    let bases = bases_of(alloc, grammar, most_bases(&deep.means), &mut positives)?;
    write_head(sink)?;
    let mut tally = Tally::new();
    write_bases(crew, alloc, deep, &recognizer, &bases, &mut tally, sink)?;
    write_end(sink, bases.len(), &tally)?;
    Ok(())
}

// How many bases there are at most. Where no operator is chosen there are none.
fn most_bases(means: &Means<'_>) -> u32
    ensures { result ≡ most_by means.now }
{
    let operators = means.mutation.operators;
    if operators.delete || operators.insert || operators.replace || operators.swap {
        means.mutation.most
    } else {
        0
    }
}

// Writes the bases, numbered from 1, and behind each those of its edits that are outside, numbered from 1 through all bases.
fn write_bases<R: Threads + Sync, S: Sink, G: Gate + Sync>(
    crew: &Crew<'_, R, G>,
    alloc: Global,
    deep: &Deep<'_>,
    recognizer: &Recognizer<'_>,
    bases: &Bases,
    tally: &mut Tally,
    sink: &mut S,
) -> Result<(), Halt>
    requires ready { CanTell deep.now recognizer.now }
    requires bases { All (IsEditable deep.now.yacc.now.grammar.tokens) bases.now.list }
    requires tally { tally.old ≡ no_edits }
    ensures text { PutsOne S.Sink (IsBasesText deep.now bases.now.list) sink.old sink.new result }
    ensures counted { OnOk result (CountsBases deep.now bases.now.list tally.new) }
    ensures lent { S.lent sink.new ≡ S.lent sink.old }
{
    one_text();
    for index in 0..bases.len() {
        let (goal, tokens) = bases.get(index);
        write_opening(sink, index + 1, goal)?;
        let base = Base {
            number: index + 1,
            tokens,
        };
        write_base(crew, alloc, deep, recognizer, &base, tally, sink)?;
    }
    Ok(())
}

// Writes those of a base's edits that are outside, and counts all.
fn write_base<R: Threads + Sync, S: Sink, G: Gate + Sync>(
    crew: &Crew<'_, R, G>,
    alloc: Global,
    deep: &Deep<'_>,
    recognizer: &Recognizer<'_>,
    base: &Base<'_>,
    tally: &mut Tally,
    sink: &mut S,
) -> Result<(), Halt>
    requires ready { CanTell deep.now recognizer.now }
    requires base { CanEdit deep.now.yacc.now.grammar.tokens base.now.tokens.now }
    requires few { HasFew deep.now base.now.tokens.now tally.old }
    ensures text { PutsEditsText S.Sink
        deep.now base.now.number base.now.tokens.now tally.old sink.old sink.new result }
    ensures counted { OnOk result (CountsEdits deep.now base.now.tokens.now tally.old tally.new) }
    ensures lent { S.lent sink.new ≡ S.lent sink.old }
{
    one_text();
    let mutation = deep.means.mutation;
    let work = DeepWork {
        recognizer,
        render: deep.means.work,
        base: base.tokens,
    };
    let mut candidates = Candidates::new(alloc, mutation.pairs, base.tokens, mutation.operators);
    'batches: loop {
        let batch = next_batch(alloc, &mut candidates)?;
        if batch.is_empty() {
            return Ok(());
        }
        let judged = judge_batch(crew, alloc, &work, &batch)?;
        write_edits(sink, deep.yacc, base.number, tally, &judged)?;
    }
}
