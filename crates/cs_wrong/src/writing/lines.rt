// The lines of slips.

ghost use Rattle.std.specs.Prelude.{All, length};
ghost use Rattle.cs_io.specs.Lines.{Writes};
ghost use Rattle.cs_manifest.specs.Output.Putting.{Puts};
ghost use Rattle.cs_wrong.specs.Writing.Entries.{IsNamedClass, IsNamedEntry, head_line, lines_by, lines_if_wrong};
ghost use Rattle.cs_wrong.specs.Writing.Tally.{CanCount, IsCounted, end_with};
ghost use Rattle.cs_wrong.specs.Writing.Text.{change_words, class_words, slip_words, wrong_lines};

use crate::classes::SlipClass;
use crate::slips::{Change, Slip};
use crate::writing::judging::Judged;
use crate::writing::tally::Tally;
use cs_io::{Sink, SinkError};
use cs_manifest::{
    LINE_LENGTH, Output, put_count, put_spaced_mark, put_text_lines, put_yield, write_line,
};
use cs_yacc::YaccFile;

/// Writes `conform wrong`.
pub(crate) fn write_head<S: Sink>(sink: &mut S) -> Result<(), SinkError>
    ensures { Writes S.Sink result head_line sink.old sink.new }
{
    write_line(sink, b"conform wrong\n")
}

/// Writes those of the slips whose lists are written, and counts all.
pub(crate) fn write_entries<S: Sink>(
    sink: &mut S,
    file: &YaccFile,
    tally: &mut Tally,
    entries: &[Judged],
) -> Result<(), SinkError>
    requires named { All (IsNamedEntry file.now) entries.now }
    requires few { CanCount tally.old (length entries.now) }
    ensures lines { Writes S.Sink result
        (lines_by file.now tally.old entries.now) sink.old sink.new }
    ensures counted { IsCounted entries.now tally.old tally.new }
{
    let mut line = [0u8; LINE_LENGTH];
    let mut output = Output::new(sink, &mut line, 0);
    put_all_judged(&mut output, file, tally, entries);
    output.end()?;
    Ok(())
}

// Counts each slip, and puts the lines of those whose lists are written.
fn put_all_judged<S: Sink>(
    output: &mut Output<'_, S>,
    file: &YaccFile,
    tally: &mut Tally,
    entries: &[Judged],
)
    requires named { All (IsNamedEntry file.now) entries.now }
    requires few { CanCount tally.old (length entries.now) }
    ensures lines { Puts S.Sink
        (lines_by file.now tally.old entries.now) output.old output.new }
    ensures counted { IsCounted entries.now tally.old tally.new }
{
    for judged in entries {
        tally.count(judged.class);
        put_judged(output, file, tally.wrong, judged);
    }
}

// Puts the lines of a slip, where its list is written.
fn put_judged<S: Sink>(output: &mut Output<'_, S>, file: &YaccFile, number: u64, judged: &Judged)
    requires { IsNamedEntry file.now judged.now }
    ensures { Puts S.Sink (lines_if_wrong file.now number judged.now) output.old output.new }
{
    if !judged.class.is_wrong() {
        return;
    }
    put_wrong(output, file, number, judged);
}

// Puts the lines of a slip: `wrong N`, the slip and its class, the list and its text.
fn put_wrong<S: Sink>(output: &mut Output<'_, S>, file: &YaccFile, number: u64, judged: &Judged)
    requires { IsNamedEntry file.now judged.now }
    ensures { Puts S.Sink (wrong_lines file.now number judged.now) output.old output.new }
{
    put_count(output, b"wrong ", number);
    put_slip(output, judged.slip);
    put_class(output, file, judged.class);
    put_yield(output, file, &judged.tokens);
    put_text_lines(output, file, judged.rendered.as_ref());
}

fn put_slip<S: Sink>(output: &mut Output<'_, S>, slip: Slip)
    ensures { Puts S.Sink (slip_words slip) output.old output.new }
{
    match slip {
        Slip::Empty => output.put(b" empty"),
        Slip::Of { rule, change } => {
            put_count(output, b" rule ", rule as u64);
            put_change(output, change);
        }
    }
}

fn put_change<S: Sink>(output: &mut Output<'_, S>, change: Change)
    ensures { Puts S.Sink (change_words change) output.old output.new }
{
    match change {
        Change::Drop(place) => put_count(output, b" drop ", place as u64),
        Change::Double(place) => put_count(output, b" double ", place as u64),
        Change::Swap(place) => put_count(output, b" swap ", place as u64),
    }
}

fn put_class<S: Sink>(output: &mut Output<'_, S>, file: &YaccFile, class: SlipClass)
    requires { IsNamedClass file.now class }
    ensures { Puts S.Sink (class_words file.now class) output.old output.new }
{
    match class {
        SlipClass::Pair { left, right, at } => {
            output.put(b" pair");
            put_spaced_mark(output, file, left);
            put_spaced_mark(output, file, right);
            put_count(output, b" at ", at as u64);
        }
        SlipClass::Outside => output.put(b" outside"),
        SlipClass::Nothing => {}
        SlipClass::Large => {}
        SlipClass::Again => {}
        SlipClass::Long => {}
        SlipClass::Sentence => {}
    }
}

/// Writes the end line.
pub(crate) fn write_end<S: Sink>(sink: &mut S, tally: &Tally) -> Result<(), SinkError>
    ensures { Writes S.Sink result (end_with tally.now) sink.old sink.new }
{
    let mut line = [0u8; LINE_LENGTH];
    let mut output = Output::new(sink, &mut line, 0);
    put_end(&mut output, tally);
    output.end()?;
    Ok(())
}

fn put_end<S: Sink>(output: &mut Output<'_, S>, tally: &Tally)
    ensures { Puts S.Sink (end_with tally.now) output.old output.new }
{
    put_count(output, b"end slips ", tally.slips);
    put_count(output, b" none ", tally.nothing);
    put_count(output, b" large ", tally.large);
    put_count(output, b" again ", tally.again);
    put_count(output, b" long ", tally.long);
    put_count(output, b" sentences ", tally.sentences);
    put_count(output, b" wrong ", tally.wrong);
    output.put(b"\n");
}
