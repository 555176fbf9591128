// Pieces, spelled in memory.

ghost use Rattle.std.specs.Prelude.{◌<◌, IfOk, Some};
ghost use Rattle.cs_manifest.specs.Output.Spelled.{IsBlank, IsSpelled};

use crate::output::output::{LINE_LENGTH, Output};
use crate::output::piece::Piece;
use cs_io::{Sink, SinkError};
use std::alloc::{AllocError, Global};

/// A sink that keeps its bytes. Want of memory is its fault.
#[derive(Drop)]
pub(crate) struct SpelledBytes {
    pub(crate) bytes: Vec<u8>,
    pub(crate) faults: u64,
}

impl Sink for SpelledBytes {
    ghost written = { λ sink. Some sink.bytes.items };

    ghost faults = { λ sink. sink.faults };

    ghost room = { λ _. 0 };

    fn write(&mut self, piece: &[u8]) -> Result<usize, SinkError> {
        match self.bytes.extend_from_slice(piece) {
            Ok(()) => Ok(piece.len()),
            Err(_) => {
                self.faults = self.faults.saturating_add(1);
                Err(SinkError::Failed)
            }
        }
    }
}

/// Where one piece after another is spelled.
#[derive(Drop)]
pub(crate) struct Speller {
    sink: SpelledBytes,

    // Lent to the output of each piece.
    line: [u8; LINE_LENGTH],
}

impl Speller {
    /// It takes no memory.
    pub(crate) fn new(alloc: Global) -> Speller {
        Speller {
            sink: SpelledBytes {
                bytes: Vec::new(alloc),
                faults: 0,
            },
            line: [0u8; LINE_LENGTH],
        }
    }

    /// An output for one piece.
    pub(crate) fn output(&mut self) -> Output<'_, SpelledBytes>
        ensures { IsBlank result }
    {
        self.sink.bytes.clear();
        Output::new(&mut self.sink, &mut self.line, 0)
    }
}

/// The piece that was put to its output.
pub(crate) fn spelled_piece(
    alloc: Global,
    output: &mut Output<'_, SpelledBytes>,
) -> Result<Piece, AllocError>
    ensures { IfOk result (IsSpelled output.old) }
{
    if output.end().is_err() {
        return Err(AllocError);
    }
    Piece::new(alloc, &output.sink.bytes)
}
