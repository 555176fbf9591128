// The entries of goals, batch by batch.

ghost use Rattle.std.specs.Prelude.{◌≡◌, All, IfOk, OnOk, length};
ghost use Rattle.cs_manifest.specs.Manifest.Manifest.{most_bases};
ghost use Rattle.cs_verdicts.specs.Cases.Cases.{no_cases};
ghost use Rattle.cs_writing.specs.Bases.Bases.{no_bases};
ghost use Rattle.cs_writing.specs.Plan.Made.{IsNamedMade};
ghost use Rattle.cs_writing.specs.Plan.Plans.{choice_in};
ghost use Rattle.cs_writing.specs.Writing.Written.{CountsCase, CountsEntry, HasNumbers, IsGoalsText, IsReady};
ghost use Rattle.cs_writing.specs.Writing.Written.{PutsBatch, PutsCase, PutsEntry, TellsBatch, TellsGoals};
ghost use Rattle.cs_io.specs.Stops.{PutsOne};

use crate::bases::Bases;
use crate::plan::{Made, Plan, next_entries};
use crate::writing::bases::keep_bases;
use cs_fan::{Crew, Gate};
use cs_io::{Halt, Sink, SinkError};
use cs_manifest::{Manifest, one_text};
use cs_verdicts::{Cases, Positives};
use std::alloc::Global;
use std::thread::Threads;

// What is kept from batch to batch: the cases, the bases, and the number of the last entry.
#[derive(Drop)]
struct Kept<'g> {
    cases: Cases<'g>,
    bases: Bases,
    number: u64,
}

/// Writes the entries of all goals in the plan's form, numbered from 1, each behind its case where that is new, and
/// answers their bases.
pub(crate) fn write_goals<R: Threads + Sync, S: Sink, G: Gate + Sync>(
    crew: &Crew<'_, R, G>,
    alloc: Global,
    plan: &Plan<'_>,
    positives: &mut Positives<'_>,
    manifest: &mut Manifest<'_>,
    sink: &mut S,
) -> Result<Bases, Halt>
    requires ready { IsReady plan.now positives.old manifest.old }
    ensures text { PutsOne S.Sink (IsGoalsText plan.now positives.old) sink.old sink.new result }
    ensures told { IfOk result (TellsGoals plan.now positives.old manifest.old manifest.new) }
    ensures lent { S.lent sink.new ≡ S.lent sink.old }
{
    let mut kept = Kept {
        cases: Cases::new(alloc, plan.yacc.grammar()),
        bases: Bases::new(alloc, plan.most_bases()),
        number: 0,
    };
    write_batches(crew, alloc, plan, positives, &mut kept, manifest, sink)?;
    Ok(kept.bases)
}

// The same where nothing is kept yet.
fn write_batches<R: Threads + Sync, S: Sink, G: Gate + Sync>(
    crew: &Crew<'_, R, G>,
    alloc: Global,
    plan: &Plan<'_>,
    positives: &mut Positives<'_>,
    kept: &mut Kept<'_>,
    manifest: &mut Manifest<'_>,
    sink: &mut S,
) -> Result<(), Halt>
    requires ready { IsReady plan.now positives.old manifest.old }
    requires cases { kept.old.cases ≡ no_cases plan.now.yacc.now.grammar }
    requires bases { kept.old.bases ≡ no_bases (most_bases (choice_in plan.now)) }
    requires number { kept.old.number ≡ 0 }
    ensures text { PutsOne S.Sink (IsGoalsText plan.now positives.old) sink.old sink.new result }
    ensures told { OnOk result
        (TellsGoals plan.now positives.old manifest.old manifest.new kept.new.bases) }
    ensures lent { S.lent sink.new ≡ S.lent sink.old }
{
    one_text();
    'batches: loop {
        let batch = next_entries(crew, alloc, plan, positives, &mut kept.cases)?;
        if batch.is_empty() {
            return Ok(());
        }
        keep_bases(&mut kept.bases, kept.number, &batch)?;
        write_batch(manifest, sink, &mut kept.number, &batch)?;
    }
}

// Writes these entries. `number` is the number of the last entry, before and then.
fn write_batch<S: Sink>(
    manifest: &mut Manifest<'_>,
    sink: &mut S,
    number: &mut u64,
    batch: &[Made],
) -> Result<(), SinkError>
    requires named { All (IsNamedMade manifest.old.file) batch.now }
    requires numbers { HasNumbers number.old (length batch.now) manifest.old.counts }
    ensures told { OnOk result
        (TellsBatch number.old batch.now number.new manifest.old manifest.new) }
    ensures lines { PutsBatch S.Sink manifest.old number.old batch.now sink.old sink.new result }
{
    for made in batch {
        *number += 1;
        write_entry(manifest, sink, *number, made)?;
    }
    Ok(())
}

// Writes an entry with its number, behind its case where that is new.
fn write_entry<S: Sink>(
    manifest: &mut Manifest<'_>,
    sink: &mut S,
    number: u64,
    made: &Made,
) -> Result<(), SinkError>
    requires named { IsNamedMade manifest.old.file made.now }
    ensures file { manifest.new.file ≡ manifest.old.file }
    ensures counted { OnOk result (CountsEntry number made.now manifest.old manifest.new) }
    ensures lines { PutsEntry S.Sink manifest.old number made.now sink.old sink.new result }
{
    write_case(manifest, sink, made)?;
    manifest.entry(sink, &made.goal(number))?;
    Ok(())
}

// Writes the case of an entry, where that is new.
fn write_case<S: Sink>(
    manifest: &mut Manifest<'_>,
    sink: &mut S,
    made: &Made,
) -> Result<(), SinkError>
    requires named { IsNamedMade manifest.old.file made.now }
    ensures file { manifest.new.file ≡ manifest.old.file }
    ensures counted { OnOk result (CountsCase made.now manifest.old manifest.new) }
    ensures lines { PutsCase S.Sink manifest.old made.now sink.old sink.new result }
{
    match made.case() {
        None => Ok(()),
        Some(case) => {
            manifest.entry(sink, &case)?;
            Ok(())
        }
    }
}
