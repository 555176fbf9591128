// The text of `wrong`, written as it is made.

ghost use Rattle.std.specs.Prelude.{◌≡◌, ◌+◌, [], OnErr, OnOk};
ghost use Rattle.cs_io.specs.Asked.{IsCalmForAll, LentCalm, LentOne, LentPart};
ghost use Rattle.cs_io.specs.Asked.{MetFault, MetNone, Stopped, TookFront, TookOne};
ghost use Rattle.cs_io.specs.BufferedSink.{buffered_room, lent_name, lent_sink, waiting_bytes};
ghost use Rattle.cs_io.specs.Stops.{PutsOne};
ghost use Rattle.cs_io.specs.declared.halt.Halt.TheVariants.{Failed};
ghost use Rattle.cs_wrong.specs.Writing.Progress.{CountsAll, IsAsked, IsBodyText, IsMakingOf, IsReady, all_slips};
ghost use Rattle.cs_wrong.specs.Writing.Tally.{no_slips};

use crate::classes::{Coming, next_batch};
use crate::slips::{Slip, slips_of};
use crate::writing::judging::{WrongWork, judge_batch};
use crate::writing::laws::{each_slip_once, one_wrong_text, some_wrong_text};
use crate::writing::lines::{write_end, write_entries, write_head};
use crate::writing::tally::Tally;
use cs_choices::{Slips, Weigh};
use cs_fan::{Crew, Gate};
use cs_grammar::Weights;
use cs_io::{BufferedSink, Halt, Sink};
use cs_least::{Costs, Embeds};
use cs_manifest::one_text;
use cs_member::Recognizer;
use cs_mutate::Pairs;
use cs_texts::RenderWork;
use cs_yacc::YaccFile;
use std::alloc::Global;
use std::thread::Threads;

// So many bytes go to the output in one piece.
const PIECE: usize = 524_288;

/// What the text of `wrong` is made by: a yacc file, the weights of what sizes count, the chosen kinds of slips, and what texts
/// are rendered with.
#[derive(Clone, Copy)]
pub struct Wrong<'a> {
    pub yacc: &'a YaccFile,
    pub weights: &'a Weights,
    pub weigh: Weigh,
    pub chosen: Slips,
    pub work: &'a RenderWork<'a>,
}

// What the lists of slips and their classes are made by.
#[derive(Clone, Copy)]
struct Making<'a> {
    pairs: &'a Pairs<'a>,
    judging: WrongWork<'a>,
}

/// Writes the text of `wrong` to the output, each batch of slips as it is classed.
pub fn write_wrong<R: Threads + Sync, O: Sink, G: Gate + Sync>(
    crew: &Crew<'_, R, G>,
    alloc: Global,
    asked: &Wrong<'_>,
    out: &mut O,
) -> Result<(), Halt>
    requires { IsReady asked.now }
    ensures ok { OnOk result (TookOne O.Sink (IsAsked asked.now) out.old out.new) }
    ensures part { OnErr result (TookFront O.Sink (IsAsked asked.now) out.old out.new) }
    ensures no_fault { OnOk result (MetNone O.Sink out.old out.new) }
    ensures failed { Stopped Failed result → MetFault O.Sink out.old out.new }
    ensures room { IsCalmForAll O.Sink (IsAsked asked.now) out.old out.new }
{
    let mut buffer = Vec::with_capacity(alloc, PIECE)?;
    let mut sink = BufferedSink::new(out, &mut buffer);
    write_through(crew, alloc, asked, &mut sink)
}

// Writes the text, and then what waits.
fn write_through<R: Threads + Sync, O: Sink, G: Gate + Sync>(
    crew: &Crew<'_, R, G>,
    alloc: Global,
    asked: &Wrong<'_>,
    sink: &mut BufferedSink<'_, '_, O>,
) -> Result<(), Halt>
    requires ready { IsReady asked.now }
    requires waiting { waiting_bytes sink.old ≡ [] }
    requires spare { buffered_room O.room sink.old ≡ O.room (lent_sink sink.old) + 1 }
    ensures lent { lent_name sink.new ≡ lent_name sink.old }
    ensures ok { OnOk result (LentOne O.Sink (IsAsked asked.now) sink.old sink.new) }
    ensures part { OnErr result (LentPart O.Sink (IsAsked asked.now) sink.old sink.new) }
    ensures no_fault { OnOk result (MetNone O.Sink (lent_sink sink.old) (lent_sink sink.new)) }
    ensures failed { Stopped Failed result
        → MetFault O.Sink (lent_sink sink.old) (lent_sink sink.new) }
    ensures room { LentCalm O.Sink (IsAsked asked.now) sink.old sink.new }
{
    one_wrong_text();
    some_wrong_text();
    tell(crew, alloc, asked, sink)?;
    sink.flush()?;
    Ok(())
}

fn tell<R: Threads + Sync, S: Sink, G: Gate + Sync>(
    crew: &Crew<'_, R, G>,
    alloc: Global,
    asked: &Wrong<'_>,
    sink: &mut S,
) -> Result<(), Halt>
    requires { IsReady asked.now }
    ensures text { PutsOne S.Sink (IsAsked asked.now) sink.old sink.new result }
    ensures lent { S.lent sink.new ≡ S.lent sink.old }
{
    let grammar = asked.yacc.grammar();
    let costs = Costs::new(alloc, grammar, asked.weights)?;
    let _weighs = costs.weights();
    let embeds = Embeds::new(alloc, costs)?;
    let pairs = Pairs::new(alloc, embeds)?;
    let recognizer = Recognizer::new(alloc, grammar)?;
    let judging = WrongWork {
        recognizer: &recognizer,
        render: asked.work,
    };
    let making = Making {
        pairs: &pairs,
        judging,
    };
    tell_by(crew, alloc, asked, &making, sink)
}

// Writes the head, the slips and the end.
fn tell_by<R: Threads + Sync, S: Sink, G: Gate + Sync>(
    crew: &Crew<'_, R, G>,
    alloc: Global,
    asked: &Wrong<'_>,
    making: &Making<'_>,
    sink: &mut S,
) -> Result<(), Halt>
    requires ready { IsReady asked.now }
    requires making { IsMakingOf asked.now making.now }
    ensures text { PutsOne S.Sink (IsAsked asked.now) sink.old sink.new result }
    ensures lent { S.lent sink.new ≡ S.lent sink.old }
{
    one_text();
    let slips = slips_of(alloc, asked.yacc.grammar(), asked.chosen)?;
    write_head(sink)?;
    let mut tally = Tally::new();
    write_slips(crew, alloc, asked, making, &slips, &mut tally, sink)?;
    write_end(sink, &tally)?;
    Ok(())
}

// Writes those of the slips whose lists are written, numbered from 1, and counts all.
fn write_slips<R: Threads + Sync, S: Sink, G: Gate + Sync>(
    crew: &Crew<'_, R, G>,
    alloc: Global,
    asked: &Wrong<'_>,
    making: &Making<'_>,
    slips: &[Slip],
    tally: &mut Tally,
    sink: &mut S,
) -> Result<(), Halt>
    requires ready { IsReady asked.now }
    requires making { IsMakingOf asked.now making.now }
    requires slips { slips.now ≡ all_slips asked.now }
    requires tally { tally.old ≡ no_slips }
    ensures text { PutsOne S.Sink (IsBodyText asked.now) sink.old sink.new result }
    ensures counted { OnOk result (CountsAll asked.now tally.new) }
    ensures lent { S.lent sink.new ≡ S.lent sink.old }
{
    one_text();
    each_slip_once();
    let _named = asked.yacc.grammar();
    let mut coming = Coming::new(alloc, slips);
    'batches: loop {
        let batch = next_batch(alloc, making.pairs, &mut coming)?;
        if batch.is_empty() {
            return Ok(());
        }
        let entries = judge_batch(crew, alloc, &making.judging, &batch)?;
        write_entries(sink, asked.yacc, tally, &entries)?;
    }
}
