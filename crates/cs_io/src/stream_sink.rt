ghost use Rattle.std.specs.Prelude.{◌≡◌, ◌<◌, ◌≤◌, IfOk, None, OnErr, OnOk, length, take};
ghost use Rattle.cs_io.specs.Faults.{next_count};

use crate::{Sink, SinkError};
use std::io::Write;

/// A sink over a writer, as a file or the standard output.
///
/// An error of the writer is a fault, and so is a write that takes no byte. As a sink it tells no
/// bytes and is sure of no room. Its own clauses say what the writer holds, where that is known.
#[derive(Drop)]
pub struct StreamSink<W: Write> {
    writer: W,
    faults: u64,
}

impl<W: Write> StreamSink<W> {
    ghost use Rattle.cs_io.specs.StreamSink.{stream_faults, stream_writer};

    /// A sink that has met no fault. It takes no memory.
    pub fn new(writer: W) -> StreamSink<W>
        ensures writer { stream_writer result ≡ writer }
        ensures faults { stream_faults result ≡ 0 }
    {
        StreamSink { writer, faults: 0 }
    }
}

impl<W: Write> Sink for StreamSink<W> {
    ghost use Rattle.cs_io.specs.StreamSink.{WriterGrew, WriterKeeps, stream_faults};

    ghost written = { λ _. None };

    ghost faults = { stream_faults };

    ghost room = { λ _. 0 };

    fn write(&mut self, piece: &[u8]) -> Result<usize, SinkError>
        requires { 0 < length piece.now }
        ensures at_least_one { IfOk result (λ count. 0 < count) }
        ensures within_piece { IfOk result (λ count. count ≤ length piece.now) }

        // What the writer holds, where it is known.
        ensures ok { IfOk result (λ count.
            WriterGrew W.contents self.old self.new (take count piece.now)) }
        ensures err { OnErr result (WriterKeeps W.contents self.old self.new) }

        ensures fault { OnErr result
            (stream_faults self.new ≡ next_count (stream_faults self.old)) }
        ensures no_fault { OnOk result (stream_faults self.new ≡ stream_faults self.old) }
        ensures faults_never_fall { stream_faults self.old ≤ stream_faults self.new }
    {
        match self.writer.write(piece) {
            Ok(count) if count > 0 => Ok(count),
            _ => {
                self.faults = self.faults.saturating_add(1);
                Err(SinkError::Failed)
            }
        }
    }
}
