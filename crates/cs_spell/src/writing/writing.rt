// The text of spellings, written to an output.

ghost use Rattle.std.specs.Prelude.{◌≡◌, ◌<◌, ◌≤◌, ◌^◌, OnErr, OnOk, length};
ghost use Rattle.cs_io.specs.Asked.{IsCalmForAll, MetFault, MetNone, Stopped, TookFront, TookOne};
ghost use Rattle.cs_io.specs.Lines.{Writes};
ghost use Rattle.cs_io.specs.Stops.{PutsOne};
ghost use Rattle.cs_io.specs.declared.halt.Halt.TheVariants.{Failed};
ghost use Rattle.cs_spell.specs.Writing.Putting.{AreNamed, told_lines_of};
ghost use Rattle.cs_spell.specs.Telling.Telling.{AreFewTokens};
ghost use Rattle.cs_spell.specs.Writing.Writing.{AreJudgedFor, HaveLexemes, IsAsked, IsReady, Spells, measure_with};

use crate::telling::{Judged, Told, Tools, judge_rules, tell_all};
use crate::writing::counting::count_all;
use crate::writing::laws::{one_spelling, some_spelling};
use crate::writing::putting::put_spell;
use cs_choices::Weigh;
use cs_grammar::Weights;
use cs_io::{Halt, Sink, SinkError, Text, write_text};
use cs_least::{Costs, Embeds};
use cs_lexical::Lexical;
use cs_manifest::{LINE_LENGTH, Output};
use cs_texts::RenderWork;
use cs_yacc::YaccFile;
use std::alloc::Global;

// What spellings are made by.
#[derive(Clone, Copy)]
struct Spelled<'a> {
    file: &'a YaccFile,
    weights: &'a Weights,
    weigh: Weigh,
    work: &'a RenderWork<'a>,
}

impl Text for Spelled<'_> {
    ghost use Rattle.cs_spell.specs.Writing.Writing.{IsAsked, IsReady};

    ghost ready = { λ spelled. IsReady spelled };

    ghost is = { λ spelled text. IsAsked spelled text };

    fn tell<S: Sink>(&self, alloc: Global, sink: &mut S) -> Result<(), Halt> {
        let costs = Costs::new(alloc, self.file.grammar(), self.weights)?;
        let embeds = Embeds::new(alloc, costs)?;
        let judged = judge_rules(alloc, &embeds)?;
        tell_judged(alloc, self, &judged, sink)
    }
}

// Tells the text to the sink, by the verdicts of rule goals.
fn tell_judged<S: Sink>(
    alloc: Global,
    spelled: &Spelled<'_>,
    judged: &[Judged],
    sink: &mut S,
) -> Result<(), Halt>
    requires ready { IsReady spelled.now }
    requires judged { AreJudgedFor spelled.now judged.now }
    requires few { AreFewTokens spelled.now.file.now.grammar.tokens judged.now }
    ensures text { PutsOne S.Sink (IsAsked spelled.now) sink.old sink.new result }
    ensures lent { S.lent sink.new ≡ S.lent sink.old }
{
    one_spelling();
    let _named = spelled.file.token_names();
    let work = spelled.work;
    let tools = Tools {
        file: spelled.file,
        work,
        judged,
    };
    let rules = work.scanner.kinds.len() as u16;
    let lexical = Lexical::new(alloc, work.scanner.automaton, rules)?;
    let told = tell_all(alloc, &tools, &lexical)?;
    write_lines(sink, spelled.file, &told)?;
    Ok(())
}

// Writes the lines.
fn write_lines<S: Sink>(sink: &mut S, file: &YaccFile, told: &[Told<'_>]) -> Result<(), SinkError>
    requires named { AreNamed file.now told.now }
    requires few { length told.now < 2 ^ 63 }
    ensures { Writes S.Sink result (told_lines_of file.now told.now) sink.old sink.new }
{
    let counts = count_all(told);
    let mut line = [0u8; LINE_LENGTH];
    let mut output = Output::new(sink, &mut line, 0);
    put_spell(&mut output, file, told, counts);
    output.end()?;
    Ok(())
}

/// Writes the text of the spellings of a scanner's rules to the output. The weights are those of what sizes count; the work is that
/// by which lists of the file's tokens are rendered.
pub fn write_spell<O: Sink>(
    alloc: Global,
    file: &YaccFile,
    weights: &Weights,
    weigh: Weigh,
    work: &RenderWork<'_>,
    out: &mut O,
) -> Result<(), Halt>
    requires weights { weights.now ≡ measure_with weigh file.now work.now }
    requires lexemes { HaveLexemes file.now work.now }
    requires few { length work.now.scanner.now.kinds.now ≤ 2048 }
    ensures ok { OnOk result (TookOne O.Sink
        (Spells file.now work.now weigh) out.old out.new) }
    ensures part { OnErr result (TookFront O.Sink
        (Spells file.now work.now weigh) out.old out.new) }
    ensures no_fault { OnOk result (MetNone O.Sink out.old out.new) }
    ensures failed { Stopped Failed result → MetFault O.Sink out.old out.new }
    ensures room { IsCalmForAll O.Sink
        (Spells file.now work.now weigh) out.old out.new }
{
    one_spelling();
    some_spelling();
    let spelled = Spelled {
        file,
        weights,
        weigh,
        work,
    };
    write_text(alloc, &spelled, out)
}
