// The text of chains, written as it is made.

ghost use Rattle.std.specs.Prelude.{◌≡◌, ◌<◌, ◌≤◌, ◌+◌, ◌∷◌, [], All, IfNone, IfOk, IfSome, None, OnErr, OnOk, length};
ghost use Rattle.std.specs.List.{AllZip};
ghost use Rattle.cs_chain.specs.Chains.Chain.{IsChain};
ghost use Rattle.cs_chain.specs.Chains.Chains.{chains};
ghost use Rattle.cs_io.specs.Asked.{IsCalmForAll, LentCalm, LentOne, LentPart, MetFault, MetNone, Stopped, TookFront, TookOne};
ghost use Rattle.cs_io.specs.BufferedSink.{buffered_room, lent_name, lent_sink, waiting_bytes};
ghost use Rattle.cs_io.specs.Stops.{PutsOne};
ghost use Rattle.cs_io.specs.declared.halt.Halt.TheVariants.{Failed};
ghost use Rattle.cs_chain_text.specs.Progress.{CanCount, CanTell, CountsAll, IsAsked, IsBodyText, IsReady, IsToldBy, IsWorkOf};
ghost use Rattle.cs_chain_text.specs.Progress.{AreFrameLinesIn, PutsBatch, TakesBatch, no_chains, told_in};
ghost use Rattle.cs_chain_text.specs.Rows.Around.{Finds};
ghost use Rattle.cs_chain_text.specs.Rows.Rows.{AreRowsOf};

use crate::entries::{Tally, TellWork, Told, write_end, write_entries, write_head};
use crate::rows::{Cores, FrameLines, Row, rows_of, write_rows};
use crate::writing::laws::{one_chains_text, some_chains_text};
use cs_chain::{Chain, Chains, each_chain_once};
use cs_choices::Weigh;
use cs_fan::{Counter, Crew, Gate, Work, fan};
use cs_grammar::Weights;
use cs_io::{BufferedSink, Halt, Sink};
use cs_least::{Costs, Embeds};
use cs_manifest::one_text;
use cs_texts::RenderWork;
use cs_yacc::YaccFile;
use std::alloc::{AllocError, Global};
use std::thread::Threads;

// So many bytes go to the output in one piece.
const PIECE: usize = 524_288;

// So many chains are a full batch, and so many workers share it.
const FULL: usize = 1_024;

const WORKERS: u16 = 4;

// One worker tells fewer.
const FEW: usize = 64;

/// What the text of chains is made by: a yacc file, the weights of what sizes count, and where there is a lex file what texts are
/// rendered with.
#[derive(Clone, Copy)]
pub struct Chained<'a> {
    pub yacc: &'a YaccFile,
    pub weights: &'a Weights,
    pub weigh: Weigh,
    pub work: Option<&'a RenderWork<'a>>,
}

// What the text is made by, and what makes what is told of its chains.
#[derive(Clone, Copy)]
struct Telling<'c, 'w> {
    chained: Chained<'c>,
    work: TellWork<'w>,
}

/// Writes the text of the chains of a file to the output, each batch as it is judged.
pub fn write_chains<R: Threads + Sync, O: Sink, G: Gate + Sync>(
    crew: &Crew<'_, R, G>,
    alloc: Global,
    chained: &Chained<'_>,
    out: &mut O,
) -> Result<(), Halt>
    requires { IsReady chained.now }
    ensures ok { OnOk result (TookOne O.Sink (IsAsked chained.now) out.old out.new) }
    ensures part { OnErr result (TookFront O.Sink (IsAsked chained.now) out.old out.new) }
    ensures no_fault { OnOk result (MetNone O.Sink out.old out.new) }
    ensures failed { Stopped Failed result → MetFault O.Sink out.old out.new }
    ensures room { IsCalmForAll O.Sink (IsAsked chained.now) out.old out.new }
{
    let mut buffer = Vec::with_capacity(alloc, PIECE)?;
    let mut sink = BufferedSink::new(out, &mut buffer);
    write_through(crew, alloc, chained, &mut sink)
}

// Writes the text, and then what waits.
fn write_through<R: Threads + Sync, O: Sink, G: Gate + Sync>(
    crew: &Crew<'_, R, G>,
    alloc: Global,
    chained: &Chained<'_>,
    sink: &mut BufferedSink<'_, '_, O>,
) -> Result<(), Halt>
    requires ready { IsReady chained.now }
    requires waiting { waiting_bytes sink.old ≡ [] }
    requires spare { buffered_room O.room sink.old ≡ O.room (lent_sink sink.old) + 1 }
    ensures lent { lent_name sink.new ≡ lent_name sink.old }
    ensures ok { OnOk result (LentOne O.Sink (IsAsked chained.now) sink.old sink.new) }
    ensures part { OnErr result (LentPart O.Sink (IsAsked chained.now) sink.old sink.new) }
    ensures no_fault { OnOk result (MetNone O.Sink (lent_sink sink.old) (lent_sink sink.new)) }
    ensures failed { Stopped Failed result
        → MetFault O.Sink (lent_sink sink.old) (lent_sink sink.new) }
    ensures room { LentCalm O.Sink (IsAsked chained.now) sink.old sink.new }
{
    one_chains_text();
    some_chains_text();
    tell(crew, alloc, chained, sink)?;
    sink.flush()?;
    Ok(())
}

fn tell<R: Threads + Sync, S: Sink, G: Gate + Sync>(
    crew: &Crew<'_, R, G>,
    alloc: Global,
    chained: &Chained<'_>,
    sink: &mut S,
) -> Result<(), Halt>
    requires { IsReady chained.now }
    ensures text { PutsOne S.Sink (IsAsked chained.now) sink.old sink.new result }
    ensures lent { S.lent sink.new ≡ S.lent sink.old }
{
    one_text();
    let costs = Costs::new(alloc, chained.yacc.grammar(), chained.weights)?;
    let _weighs = costs.weights();
    let embeds = Embeds::new(alloc, costs)?;
    let telling = Telling {
        chained: *chained,
        work: TellWork {
            embeds: &embeds,
            work: chained.work,
        },
    };
    let mut cores = Cores::new(alloc, chained.yacc, embeds.costs())?;
    write_head(sink, chained.yacc, chained.work)?;
    let mut tally = Tally::new();
    write_goals(crew, alloc, &telling, &mut cores, &mut tally, sink)?;
    write_end(sink, &tally)?;
    Ok(())
}

// Writes the chains, numbered from 1, and counts them.
fn write_goals<R: Threads + Sync, S: Sink, G: Gate + Sync>(
    crew: &Crew<'_, R, G>,
    alloc: Global,
    telling: &Telling<'_, '_>,
    cores: &mut Cores<'_>,
    tally: &mut Tally,
    sink: &mut S,
) -> Result<(), Halt>
    requires ready { IsReady telling.now.chained }
    requires work { IsWorkOf telling.now.chained telling.now.work }
    requires cores { cores.old ≡ told_in telling.now.chained }
    requires tally { tally.old ≡ no_chains }
    ensures text { PutsOne S.Sink (IsBodyText telling.now.chained) sink.old sink.new result }
    ensures counted { OnOk result (CountsAll telling.now.chained tally.new) }
    ensures lent { S.lent sink.new ≡ S.lent sink.old }
{
    one_text();
    each_chain_once();
    let mut chains = Chains::new(telling.chained.yacc.grammar());
    'batches: loop {
        let batch = next_batch(alloc, &mut chains, telling.chained.work.is_none())?;
        if batch.is_empty() {
            return Ok(());
        }
        write_batch(crew, alloc, telling, cores, tally, &batch, sink)?;
    }
}

// Takes the next chains, at most as many as are a full batch; of these that differ in the inner rule alone, where that is asked
// for. None where no chain is left.
fn next_batch(
    alloc: Global,
    chains: &mut Chains<'_>,
    beside: bool,
) -> Result<Vec<Chain>, AllocError>
    ensures { IfOk result (λ batch. TakesBatch chains.old batch.items chains.new) }
{
    let mut batch = Vec::with_capacity(alloc, FULL)?;
    let Some(first) = chains.next() else {
        return Ok(batch);
    };
    batch.push(first)?;
    for _ in 0..FULL - 1 {
        let Some(chain) = next_with(chains, &first, beside) else {
            return Ok(batch);
        };
        batch.push(chain)?;
    }
    Ok(batch)
}

// The next chain that may stand in a batch with the first.
fn next_with(chains: &mut Chains<'_>, first: &Chain, beside: bool) -> Option<Chain>
    ensures some { IfSome result (λ chain. chains.old ≡ chain ∷ chains.new) }
    ensures none { IfNone result (chains.new ≡ chains.old) }
{
    if beside {
        chains.next_beside(first)
    } else {
        chains.next()
    }
}

// Writes the chains of a batch, and counts them: by the parts of their lines, where these are kept.
fn write_batch<R: Threads + Sync, S: Sink, G: Gate + Sync>(
    crew: &Crew<'_, R, G>,
    alloc: Global,
    telling: &Telling<'_, '_>,
    cores: &mut Cores<'_>,
    tally: &mut Tally,
    batch: &[Chain],
    sink: &mut S,
) -> Result<(), Halt>
    requires ready { IsReady telling.now.chained }
    requires work { IsWorkOf telling.now.chained telling.now.work }
    requires cores { cores.old ≡ told_in telling.now.chained }
    requires chains { All (IsChain telling.now.work.embeds.now.grammar) batch.now }
    requires few { length batch.now ≤ 1024 }
    requires count { CanCount tally.old (length batch.now) }
    ensures cores { cores.new ≡ cores.old }
    ensures put { PutsBatch S.Sink telling.now.chained batch.now
        tally.old tally.new sink.old sink.new result }
    ensures lent { S.lent sink.new ≡ S.lent sink.old }
{
    if let Some(frame) = frame_of(alloc, telling, cores, batch)? {
        if let Some(rows) = rows_of(alloc, &*cores, &frame, batch)? {
            return write_kept(&telling.chained, cores, tally, batch, &rows, sink);
        }
    }
    write_told(crew, alloc, telling, tally, batch, sink)
}

// What the chains of a batch have in common, where no texts are rendered. Their inner nodes are kept.
fn frame_of(
    alloc: Global,
    telling: &Telling<'_, '_>,
    cores: &mut Cores<'_>,
    batch: &[Chain],
) -> Result<Option<FrameLines>, AllocError>
    requires work { IsWorkOf telling.now.chained telling.now.work }
    requires chains { All (IsChain telling.now.work.embeds.now.grammar) batch.now }
    ensures cores { cores.new ≡ cores.old }
    ensures frame { Finds (AreFrameLinesIn telling.now.chained) result }
{
    if batch.is_empty() {
        return Ok(None);
    }
    match telling.chained.work {
        Some(_) => Ok(None),
        None => frame_with(alloc, telling, cores, batch),
    }
}

// The same of a batch that has chains.
fn frame_with(
    alloc: Global,
    telling: &Telling<'_, '_>,
    cores: &mut Cores<'_>,
    batch: &[Chain],
) -> Result<Option<FrameLines>, AllocError>
    requires none { telling.now.chained.work ≡ None }
    requires some { 0 < length batch.now }
    requires work { IsWorkOf telling.now.chained telling.now.work }
    requires chains { All (IsChain telling.now.work.embeds.now.grammar) batch.now }
    ensures cores { cores.new ≡ cores.old }
    ensures frame { Finds (AreFrameLinesIn telling.now.chained) result }
{
    keep_all(alloc, cores, batch)?;
    FrameLines::new(alloc, telling.chained.yacc, telling.work.embeds, &batch[0])
}

// Keeps the inner nodes of chains.
fn keep_all(alloc: Global, cores: &mut Cores<'_>, batch: &[Chain]) -> Result<(), AllocError>
    ensures { cores.new ≡ cores.old }
{
    for chain in batch {
        cores.keep(alloc, chain.inner)?;
    }
    Ok(())
}

// Writes the rows of a batch.
fn write_kept<S: Sink>(
    chained: &Chained<'_>,
    cores: &Cores<'_>,
    tally: &mut Tally,
    batch: &[Chain],
    rows: &[Row<'_>],
    sink: &mut S,
) -> Result<(), Halt>
    requires cores { cores.now ≡ told_in chained.now }
    requires chains { All (IsChain chained.now.yacc.now.grammar) batch.now }
    requires none { chained.now.work ≡ None }
    requires rows { AreRowsOf cores.now batch.now rows.now }
    requires count { CanCount tally.old (length batch.now) }
    ensures put { PutsBatch S.Sink chained.now batch.now
        tally.old tally.new sink.old sink.new result }
    ensures lent { S.lent sink.new ≡ S.lent sink.old }
{
    write_rows(sink, cores, tally, rows)?;
    Ok(())
}

// Writes what the workers tell of a batch.
fn write_told<R: Threads + Sync, S: Sink, G: Gate + Sync>(
    crew: &Crew<'_, R, G>,
    alloc: Global,
    telling: &Telling<'_, '_>,
    tally: &mut Tally,
    batch: &[Chain],
    sink: &mut S,
) -> Result<(), Halt>
    requires work { IsWorkOf telling.now.chained telling.now.work }
    requires chains { All (IsChain telling.now.work.embeds.now.grammar) batch.now }
    requires few { length batch.now ≤ 1024 }
    requires count { CanCount tally.old (length batch.now) }
    ensures put { PutsBatch S.Sink telling.now.chained batch.now
        tally.old tally.new sink.old sink.new result }
    ensures lent { S.lent sink.new ≡ S.lent sink.old }
{
    let _named = telling.chained.yacc.grammar();
    let entries = tell_batch(crew, alloc, &telling.work, batch)?;
    write_entries(sink, telling.chained.yacc, tally, &entries)?;
    Ok(())
}

// What is told of the chains of a batch, in order.
fn tell_batch<R: Threads + Sync, G: Gate + Sync>(
    crew: &Crew<'_, R, G>,
    alloc: Global,
    work: &TellWork<'_>,
    batch: &[Chain],
) -> Result<Vec<Told>, AllocError>
    requires can { CanTell work.now }
    requires chains { All (IsChain work.now.embeds.now.grammar) batch.now }
    requires few { length batch.now ≤ 1024 }
    ensures { IfOk result (λ entries. AllZip (IsToldBy work.now) batch.now entries.items) }
{
    share(crew, alloc, work, batch)
}

// What the work makes of the chains of a batch, by workers.
fn share<R: Threads + Sync, W: Work<Chain, Told> + Sync, G: Gate + Sync>(
    crew: &Crew<'_, R, G>,
    alloc: Global,
    work: &W,
    batch: &[Chain],
) -> Result<Vec<Told>, AllocError>
    requires takes { All (W.takes work.now) batch.now }
    requires few { length batch.now ≤ 1024 }
    ensures { IfOk result (λ entries. AllZip (W.answers work.now) batch.now entries.items) }
{
    let workers = workers_for(batch.len());
    let (counter, mut seat) = Counter::new(alloc, batch.len() as u32, workers)?;
    fan(crew.rt, alloc, batch, work, crew.gate, &counter, &mut seat)
}

// How many workers share so many chains: to start one takes longer than to tell a few.
fn workers_for(chains: usize) -> u16
    ensures some { 0 < result }
    ensures few { result ≤ 64 }
{
    if chains < FEW { 1 } else { WORKERS }
}
