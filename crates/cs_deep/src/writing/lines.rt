// The lines of edits and bases, and the end.

ghost use Rattle.std.specs.Prelude.{All, codes};
ghost use Rattle.cs_deep.specs.Writing.Deep.{deep_lines};
ghost use Rattle.cs_deep.specs.Writing.Lines.{CanCount, IsNamedEntry, PutsEdits, WritesEdits};
ghost use Rattle.cs_deep.specs.Writing.Lines.{end_with, lines_if_outside};
ghost use Rattle.cs_deep.specs.Writing.Tally.{IsCounted};
ghost use Rattle.cs_io.specs.Lines.{Writes};
ghost use Rattle.cs_manifest.specs.Manifest.Lines.{base_line};
ghost use Rattle.cs_manifest.specs.Output.Putting.{Puts};
ghost use Rattle.cs_manifest.specs.Output.Words as words;

use crate::writing::judging::Judged;
use crate::writing::tally::Tally;
use cs_io::{Sink, SinkError};
use cs_manifest::{
    LINE_LENGTH, Output, put_count, put_edit, put_text_lines, put_yield, write_line,
};
use cs_yacc::YaccFile;

/// Writes the head.
pub(crate) fn write_head<S: Sink>(sink: &mut S) -> Result<(), SinkError>
    ensures { Writes S.Sink result (words.line (codes "conform deep")) sink.old sink.new }
{
    write_line(sink, b"conform deep\n")
}

/// Writes `base B goal N`.
pub(crate) fn write_opening<S: Sink>(sink: &mut S, number: u32, goal: u64) -> Result<(), SinkError>
    ensures { Writes S.Sink result (base_line number goal) sink.old sink.new }
{
    let mut line = [0u8; LINE_LENGTH];
    let mut output = Output::new(sink, &mut line, 0);
    put_count(&mut output, b"base ", number as u64);
    put_count(&mut output, b" goal ", goal);
    output.put(b"\n");
    output.end()?;
    Ok(())
}

/// Writes those of the edits that are outside, and counts all.
pub(crate) fn write_edits<S: Sink>(
    sink: &mut S,
    file: &YaccFile,
    base: u32,
    tally: &mut Tally,
    edits: &[Judged],
) -> Result<(), SinkError>
    requires named { All (IsNamedEntry file.now) edits.now }
    requires few { CanCount tally.old edits.now }
    ensures lines { WritesEdits S.Sink
        result file.now base tally.old edits.now sink.old sink.new }
    ensures counted { IsCounted edits.now tally.old tally.new }
{
    let mut line = [0u8; LINE_LENGTH];
    let mut output = Output::new(sink, &mut line, 0);
    put_edits(&mut output, file, base, tally, edits);
    output.end()?;
    Ok(())
}

fn put_edits<S: Sink>(
    output: &mut Output<'_, S>,
    file: &YaccFile,
    base: u32,
    tally: &mut Tally,
    edits: &[Judged],
)
    requires named { All (IsNamedEntry file.now) edits.now }
    requires few { CanCount tally.old edits.now }
    ensures lines { PutsEdits S.Sink
        file.now base tally.old edits.now output.old output.new }
    ensures counted { IsCounted edits.now tally.old tally.new }
{
    for judged in edits {
        tally.count(judged.class);
        put_judged(output, file, base, tally.deep, judged);
    }
}

// Puts the lines of an edit, where it is outside.
fn put_judged<S: Sink>(
    output: &mut Output<'_, S>,
    file: &YaccFile,
    base: u32,
    number: u64,
    judged: &Judged,
)
    requires { IsNamedEntry file.now judged.now }
    ensures { Puts S.Sink (lines_if_outside file.now base number judged.now)
        output.old output.new }
{
    if !judged.class.is_outside() {
        return;
    }
    put_deep(output, file, base, number, judged);
}

// Puts the lines of an edit: `deep K base B EDIT`, the edited list and its text.
fn put_deep<S: Sink>(
    output: &mut Output<'_, S>,
    file: &YaccFile,
    base: u32,
    number: u64,
    judged: &Judged,
)
    requires { IsNamedEntry file.now judged.now }
    ensures { Puts S.Sink (deep_lines file.now base number judged.now) output.old output.new }
{
    put_count(output, b"deep ", number);
    put_count(output, b" base ", base as u64);
    put_edit(output, file, judged.edit);
    put_yield(output, file, &judged.tokens);
    put_text_lines(output, file, judged.rendered.as_ref());
}

/// Writes the end line.
pub(crate) fn write_end<S: Sink>(sink: &mut S, bases: u32, tally: &Tally) -> Result<(), SinkError>
    ensures { Writes S.Sink result (end_with bases tally.now) sink.old sink.new }
{
    let mut line = [0u8; LINE_LENGTH];
    let mut output = Output::new(sink, &mut line, 0);
    put_count(&mut output, b"end bases ", bases as u64);
    put_count(&mut output, b" edits ", tally.edits);
    put_count(&mut output, b" negatives ", tally.negatives);
    put_count(&mut output, b" deep ", tally.deep);
    put_count(&mut output, b" sentences ", tally.sentences);
    put_count(&mut output, b" long ", tally.long);
    output.put(b"\n");
    output.end()?;
    Ok(())
}
