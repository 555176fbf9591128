ghost use Rattle.std.specs.Prelude.{◌≡◌, ◌+◌, ◌<◌, ◌≤◌, IfOk, IsOk, OnErr, OnOk, List, None, Option, ℕ, length};
ghost use Rattle.std.specs.Borrow.{GName};
ghost use Rattle.std.specs.Io.KnownBytes.{append_known};
ghost use Rattle.cs_io.specs.Faults.{Rose};
ghost use Rattle.cs_io.specs.Sink.{GrewByFirst, GrewByPrefix};

use thiserror::Error;

/// Why a sink doesn't take a piece.
#[derive(Clone, Copy, Debug, PartialEq, Eq, Error)]
pub enum SinkError {
    /// The write failed. This is a fault.
    #[error("the write failed")]
    Failed,
}

/// A place that takes bytes, one piece after another.
///
/// Contracts know five things of a sink: the bytes that were `written` to it, where it tells them;
/// how many `faults` it has met; for how many bytes it is sure to have `room`; and of a sink over a
/// lent one, which sink was `lent` and how many bytes it is known to have `passed` on.
pub trait Sink {
    /// The bytes that it has taken, in order, or `None` for a sink that doesn't tell them.
    ghost written: { Self → Option (List ℕ) };

    /// How many calls have failed. The count never falls, and at the greatest u64 it stands still.
    ghost faults: { Self → ℕ };

    /// How many more bytes it is sure to take: while this is at least 1, no write fails.
    ghost room: { Self → ℕ };

    /// The reference to the sink that it writes to, for a sink over a lent one. No call changes it.
    ghost lent: { Self → Option GName } = { λ _. None };

    /// How many bytes it is known to have passed on to the lent sink.
    ghost passed: { Self → ℕ } = { λ _. 0 };

    /// Takes the first bytes of the piece, at least one, and answers how many. It takes no memory.
    ///
    /// The piece isn't empty. After `SinkError::Failed` the sink has taken nothing of it.
    fn write(&mut self, piece: &[u8]) -> Result<usize, SinkError>
        requires { 0 < length piece.now }

        // What is taken.
        ensures at_least_one { IfOk result (λ count. 0 < count) }
        ensures within_piece { IfOk result (λ count. count ≤ length piece.now) }
        ensures ok { IfOk result (GrewByFirst (written self.old) (written self.new) piece.now) }
        ensures err { OnErr result (written self.new ≡ written self.old) }

        // The faults.
        ensures no_fault { OnOk result (faults self.new ≡ faults self.old) }
        ensures fault { OnErr result (Rose (faults self.old) (faults self.new)) }
        ensures faults_never_fall { faults self.old ≤ faults self.new }

        // What room is for.
        ensures ok_with_room { 0 < room self.old → IsOk result }
        ensures room_left { IfOk result (λ count. room self.old ≤ room self.new + count) }

        // The lent sink.
        ensures same_lent { lent self.new ≡ lent self.old }
        ensures passed_never_falls { passed self.old ≤ passed self.new };
}

/// Writes the whole piece, which may be empty, in as many calls as the sink wants. It takes no
/// memory.
///
/// After `SinkError::Failed` the sink has taken a prefix of the piece.
#[tactic(auto, using(crate::proofs::Known::known_next))]
pub fn write_all<S: Sink>(sink: &mut S, piece: &[u8]) -> Result<(), SinkError>
    ensures ok { OnOk result (S.written sink.new ≡ append_known (S.written sink.old) piece.now) }
    ensures err { OnErr result (GrewByPrefix (S.written sink.old) (S.written sink.new) piece.now) }

    // The faults.
    ensures no_fault { OnOk result (S.faults sink.new ≡ S.faults sink.old) }
    ensures fault { OnErr result (Rose (S.faults sink.old) (S.faults sink.new)) }
    ensures faults_never_fall { S.faults sink.old ≤ S.faults sink.new }

    // A sink with room for the piece takes it.
    ensures ok_with_room { length piece.now ≤ S.room sink.old → IsOk result }
    ensures room_left { OnOk result (S.room sink.old ≤ S.room sink.new + length piece.now) }

    // The lent sink.
    ensures same_lent { S.lent sink.new ≡ S.lent sink.old }
    ensures passed_never_falls { S.passed sink.old ≤ S.passed sink.new }
{
    let mut at = 0usize;
    while at < piece.len() {
        at += sink.write(&piece[at..])?;
    }
    Ok(())
}
