// A text that is asked for, written to an output.

ghost use Rattle.std.specs.Prelude.{◌≡◌, ◌+◌, [], OnErr, OnOk};
ghost use Rattle.cs_io.specs.Asked.{IsCalmForAll, IsNotWithout, IsOne, LentCalm, LentOne, LentPart};
ghost use Rattle.cs_io.specs.Asked.{MetFault, MetNone, Stopped, TookFront, TookOne};
ghost use Rattle.cs_io.specs.BufferedSink.{buffered_room, lent_name, lent_sink, waiting_bytes};
ghost use Rattle.cs_io.specs.declared.halt.Halt.TheVariants.{Failed};

use crate::buffered_sink::BufferedSink;
use crate::halt::Halt;
use crate::sink::Sink;
use std::alloc::Global;

// So many bytes go to the output in one piece.
const PIECE: usize = 524_288;

/// A text that can be told to a sink, piece by piece.
pub trait Text {
    ghost use Rattle.std.specs.Prelude.{◌≡◌, ℕ, List};
    ghost use Rattle.cs_io.specs.Stops.{PutsOne};

    // When it can be told.
    ghost ready: { Self → Type 0 };

    // Which bytes it may have.
    ghost is: { Self → List ℕ → Type 0 };

    /// Tells it to the sink: all of it, or a prefix of it where a write fails or memory ends.
    fn tell<S: Sink>(&self, alloc: Global, sink: &mut S) -> Result<(), Halt>
        requires { ready self.now }
        ensures text { PutsOne S.Sink (is self.now) sink.old sink.new result }
        ensures lent { S.lent sink.new ≡ S.lent sink.old };
}

/// Writes the text to the output, in large pieces.
pub fn write_text<T: Text, O: Sink>(alloc: Global, text: &T, out: &mut O) -> Result<(), Halt>
    requires ready { T.ready text.now }
    requires one { IsOne (T.is text.now) }
    requires some { IsNotWithout (T.is text.now) }
    ensures ok { OnOk result (TookOne O.Sink (T.is text.now) out.old out.new) }
    ensures part { OnErr result (TookFront O.Sink (T.is text.now) out.old out.new) }
    ensures no_fault { OnOk result (MetNone O.Sink out.old out.new) }
    ensures failed { Stopped Failed result → MetFault O.Sink out.old out.new }
    ensures room { IsCalmForAll O.Sink (T.is text.now) out.old out.new }
{
    let mut buffer = Vec::with_capacity(alloc, PIECE)?;
    let mut sink = BufferedSink::new(out, &mut buffer);
    write_through(alloc, text, &mut sink)
}

// Writes the text, and then what waits.
fn write_through<T: Text, O: Sink>(
    alloc: Global,
    text: &T,
    sink: &mut BufferedSink<'_, '_, O>,
) -> Result<(), Halt>
    requires ready { T.ready text.now }
    requires one { IsOne (T.is text.now) }
    requires some { IsNotWithout (T.is text.now) }
    requires waiting { waiting_bytes sink.old ≡ [] }
    requires spare { buffered_room O.room sink.old ≡ O.room (lent_sink sink.old) + 1 }
    ensures lent { lent_name sink.new ≡ lent_name sink.old }
    ensures ok { OnOk result (LentOne O.Sink (T.is text.now) sink.old sink.new) }
    ensures part { OnErr result (LentPart O.Sink (T.is text.now) sink.old sink.new) }
    ensures no_fault { OnOk result (MetNone O.Sink (lent_sink sink.old) (lent_sink sink.new)) }
    ensures failed { Stopped Failed result
        → MetFault O.Sink (lent_sink sink.old) (lent_sink sink.new) }
    ensures room { LentCalm O.Sink (T.is text.now) sink.old sink.new }
{
    text.tell(alloc, sink)?;
    sink.flush()?;
    Ok(())
}
