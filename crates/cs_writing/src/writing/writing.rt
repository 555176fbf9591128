// The manifest of a plan, entry by entry.

ghost use Rattle.std.specs.Prelude.{◌≡◌, ◌+◌, [], IfOk, OnErr, OnOk};
ghost use Rattle.cs_goals.specs.Goals.{goals};
ghost use Rattle.cs_io.specs.BufferedSink.{buffered_room, lent_name, lent_sink, waiting_bytes};
ghost use Rattle.cs_choices.specs.declared.format.Format.TheVariants.{One};
ghost use Rattle.cs_io.specs.declared.halt.Halt.TheVariants.{Failed};
ghost use Rattle.cs_writing.specs.Plan.Plans.{IsOfPlan, IsPlan, IsPlanned, format_by};
ghost use Rattle.cs_writing.specs.Writing.Writing.{CountsOfAll, HasNoCases};
ghost use Rattle.cs_io.specs.Asked.{IsCalmForAll, LentCalm, LentOne, LentPart};
ghost use Rattle.cs_io.specs.Asked.{MetFault, MetNone, Stopped, TookFront, TookOne};
ghost use Rattle.cs_io.specs.Stops.{PutsOne};

use crate::plan::Plan;
use crate::writing::goals::write_goals;
use crate::writing::mutants::write_bases;
use cs_fan::{Crew, Gate};
use cs_io::{BufferedSink, Halt, Sink};
use cs_manifest::{Counts, Manifest, one_manifest, one_text, some_manifest};
use cs_verdicts::Positives;
use std::alloc::Global;
use std::thread::Threads;

// So many bytes go to the output in one piece.
const PIECE: usize = 524_288;

/// Writes the manifest of a plan to the output, each batch of entries as it is made, and answers
/// the counts of its end line and the length of all lines. The positives are those of all goals of
/// the plan.
pub fn write_out<R: Threads + Sync, O: Sink, G: Gate + Sync>(
    crew: &Crew<'_, R, G>,
    alloc: Global,
    plan: &Plan<'_>,
    positives: Positives<'_>,
    out: &mut O,
) -> Result<Counts, Halt>
    requires plan { IsPlan plan.now }
    requires grammar { IsOfPlan plan.now positives }
    requires all { positives.goals ≡ goals positives.tables.grammar plan.now.criteria }
    ensures ok { OnOk result (TookOne O.Sink (IsPlanned plan.now) out.old out.new) }
    ensures counts { IfOk result (CountsOfAll (IsPlanned plan.now)) }
    ensures first { format_by plan.now.form ≡ One → IfOk result HasNoCases }
    ensures part { OnErr result
        (TookFront O.Sink (IsPlanned plan.now) out.old out.new) }
    ensures no_fault { OnOk result (MetNone O.Sink out.old out.new) }
    ensures failed { Stopped Failed result → MetFault O.Sink out.old out.new }
    ensures room { IsCalmForAll O.Sink (IsPlanned plan.now) out.old out.new }
{
    let mut buffer = Vec::with_capacity(alloc, PIECE)?;
    let mut sink = BufferedSink::new(out, &mut buffer);
    write_through(crew, alloc, plan, positives, &mut sink)
}

// Writes the manifest, and then what waits.
fn write_through<R: Threads + Sync, O: Sink, G: Gate + Sync>(
    crew: &Crew<'_, R, G>,
    alloc: Global,
    plan: &Plan<'_>,
    positives: Positives<'_>,
    sink: &mut BufferedSink<'_, '_, O>,
) -> Result<Counts, Halt>
    requires plan { IsPlan plan.now }
    requires grammar { IsOfPlan plan.now positives }
    requires all { positives.goals ≡ goals positives.tables.grammar plan.now.criteria }
    requires waiting { waiting_bytes sink.old ≡ [] }
    requires spare { buffered_room O.room sink.old ≡ O.room (lent_sink sink.old) + 1 }
    ensures lent { lent_name sink.new ≡ lent_name sink.old }
    ensures ok { OnOk result
        (LentOne O.Sink (IsPlanned plan.now) sink.old sink.new) }
    ensures counts { IfOk result (CountsOfAll (IsPlanned plan.now)) }
    ensures first { format_by plan.now.form ≡ One → IfOk result HasNoCases }
    ensures part { OnErr result
        (LentPart O.Sink (IsPlanned plan.now) sink.old sink.new) }
    ensures no_fault { OnOk result
        (MetNone O.Sink (lent_sink sink.old) (lent_sink sink.new)) }
    ensures failed { Stopped Failed result
        → MetFault O.Sink (lent_sink sink.old) (lent_sink sink.new) }
    ensures room { LentCalm O.Sink (IsPlanned plan.now) sink.old sink.new }
{
    one_manifest();
    some_manifest();
    let counts = write_manifest(crew, alloc, plan, positives, sink)?;
    sink.flush()?;
    Ok(counts)
}

fn write_manifest<R: Threads + Sync, S: Sink, G: Gate + Sync>(
    crew: &Crew<'_, R, G>,
    alloc: Global,
    plan: &Plan<'_>,
    mut positives: Positives<'_>,
    sink: &mut S,
) -> Result<Counts, Halt>
    requires plan { IsPlan plan.now }
    requires grammar { IsOfPlan plan.now positives }
    requires all { positives.goals ≡ goals positives.tables.grammar plan.now.criteria }
    ensures text { PutsOne S.Sink (IsPlanned plan.now) sink.old sink.new result }
    ensures counts { IfOk result (CountsOfAll (IsPlanned plan.now)) }
    ensures first { format_by plan.now.form ≡ One → IfOk result HasNoCases }
    ensures lent { S.lent sink.new ≡ S.lent sink.old }
{
    one_text();
    let mut manifest = Manifest::begin(sink, &plan.head())?;
    let bases = write_goals(crew, alloc, plan, &mut positives, &mut manifest, sink)?;
    write_bases(alloc, plan, &bases, &mut manifest, sink)?;
    Ok(manifest.finish(sink)?)
}
