// The text of `deep`.

ghost use Rattle.std.specs.Prelude.{◌≡◌, OnErr, OnOk};
ghost use Rattle.cs_io.specs.Asked.{IsCalmForAll, MetFault, MetNone, Stopped, TookFront, TookOne};
ghost use Rattle.cs_io.specs.declared.halt.Halt.TheVariants.{Failed};
ghost use Rattle.cs_run.specs.Command.Scanned.{CanRenderAsked, IsDeepBy, measure_asked};

use crate::command::lexemes::Asked;
use crate::writer::means_of;
use cs_deep::{Deep, write_deep};
use cs_fan::{Crew, Gate};
use cs_grammar::Weights;
use cs_io::{Halt, Sink};
use cs_texts::RenderWork;
use cs_verdicts::Tables;
use std::alloc::Global;
use std::thread::Threads;

/// Writes the edits that hold no poisoned pair and are outside the language, by these weights and what renders texts.
pub(crate) fn deep<'f, R: Threads + Sync, O: Sink, G: Gate + Sync>(
    crew: &Crew<'_, R, G>,
    alloc: Global,
    asked: Asked<'f>,
    weights: &'f Weights,
    work: &'f RenderWork<'f>,
    out: &mut O,
) -> Result<(), Halt>
    requires weights { weights.now ≡ measure_asked asked work.now }
    requires work { CanRenderAsked asked work.now }
    ensures ok { OnOk result (TookOne O.Sink (IsDeepBy asked.entry work.now) out.old out.new) }
    ensures part { OnErr result (TookFront O.Sink (IsDeepBy asked.entry work.now) out.old out.new) }
    ensures no_fault { OnOk result (MetNone O.Sink out.old out.new) }
    ensures failed { Stopped Failed result → MetFault O.Sink out.old out.new }
    ensures room { IsCalmForAll O.Sink (IsDeepBy asked.entry work.now) out.old out.new }
{
    let tables = Tables::new(alloc, asked.yacc.grammar(), weights)?;
    let deep = Deep {
        yacc: asked.yacc,
        criteria: asked.options.criteria,
        tables: &tables,
        means: means_of(asked.options, work, tables.pairs()),
    };
    write_deep(crew, alloc, &deep, out)
}
