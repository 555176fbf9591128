// A line that stands alone.

ghost use Rattle.cs_io.specs.Lines.{Writes};

use cs_io::{Sink, SinkError, write_all};

/// Writes the bytes of a line.
pub fn write_line<S: Sink>(sink: &mut S, line: &[u8]) -> Result<(), SinkError>
    ensures { Writes S.Sink result line.now sink.old sink.new }
{
    write_all(sink, line)
}
