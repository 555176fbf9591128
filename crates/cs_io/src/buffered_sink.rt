ghost use Rattle.std.specs.Prelude.{◌≡◌, ◌+◌, ◌<◌, ◌≤◌, ◌++◌, [], IsOk, OnErr, OnOk, Some, drop, length, vec_len, vec_capacity};
ghost use Rattle.cs_io.specs.Faults.{Rose};
ghost use Rattle.cs_io.specs.Sink.{GrewByFirst};

use crate::{Sink, SinkError};

/// A sink over a lent sink, which gathers small pieces and passes them on in large ones.
#[derive(Drop)]
pub struct BufferedSink<'s, 'w, S: Sink> {
    sink: &'s mut S,
    waiting: &'w mut Vec<u8>,
}

impl<'s, 'w, S: Sink> BufferedSink<'s, 'w, S> {
    ghost use Rattle.cs_io.specs.BufferedSink.{HasRoomForWaiting, LentMetNone, LentRose, buffered_room, buffered_written, lent_faults, lent_name, lent_sink, lent_taken, spare, waiting_bytes};

    /// A sink over this one, for which nothing waits. Small pieces are gathered in the buffer, up to its capacity. It takes
    /// no memory.
    pub fn new(sink: &'s mut S, buffer: &'w mut Vec<u8>) -> BufferedSink<'s, 'w, S>
        ensures lent { lent_name result ≡ sink.entry.ghost_name }
        ensures sink { lent_sink result ≡ sink.old }
        ensures waiting { waiting_bytes result ≡ [] }
        ensures room { 0 < vec_capacity buffer.old
            → buffered_room S.room result ≡ S.room sink.old + 1 }
    {
        buffer.clear();
        BufferedSink {
            sink,
            waiting: buffer,
        }
    }

    /// Passes on what waits. It takes no memory.
    ///
    /// After `SinkError::Failed` the rest still waits.
    pub fn flush(&mut self) -> Result<(), SinkError>
        ensures lent { lent_name self.new ≡ lent_name self.old }
        ensures waiting { OnOk result (waiting_bytes self.new ≡ []) }
        ensures written { buffered_written S.written self.new
            ≡ buffered_written S.written self.old }
        ensures passed { lent_taken S.written self.old ≤ lent_taken S.written self.new }
        ensures no_fault { OnOk result (LentMetNone S.faults self.old self.new) }
        ensures fault { OnErr result (LentRose S.faults self.old self.new) }
        ensures faults_never_fall { lent_faults S.faults self.old
            ≤ lent_faults S.faults self.new }
        ensures ok_with_room { HasRoomForWaiting S.room self.old → IsOk result }
        ensures room_left { OnOk result
            (buffered_room S.room self.old ≤ buffered_room S.room self.new) }
    {
        let (count, result) = pass_on(&mut *self.sink, self.waiting.as_slice());
        remove_front(&mut *self.waiting, count);
        result
    }

    // Lets a piece wait, for which there is room.
    fn keep(&mut self, piece: &[u8]) -> usize
        requires { vec_len self.old.waiting.now + length piece.now
            ≤ vec_capacity self.old.waiting.now }
        ensures count { result ≡ length piece.now }
        ensures lent { lent_name self.new ≡ lent_name self.old }
        ensures sink { lent_sink self.new ≡ lent_sink self.old }
        ensures waiting { waiting_bytes self.new ≡ waiting_bytes self.old ++ piece.now }
        ensures room { spare self.old ≤ spare self.new }
    {
        self.waiting.extend_from_slice(piece).unwrap();
        piece.len()
    }
}

impl<'s, 'w, S: Sink> Sink for BufferedSink<'s, 'w, S> {
    ghost use Rattle.cs_io.specs.BufferedSink.{buffered_room, buffered_written, lent_faults, lent_name, lent_taken};

    ghost written = { buffered_written S.written };

    ghost faults = { lent_faults S.faults };

    ghost room = { buffered_room S.room };

    ghost lent = { λ buffered. Some (lent_name buffered) };

    ghost passed = { lent_taken S.written };

    fn write(&mut self, piece: &[u8]) -> Result<usize, SinkError> {
        if piece.len() <= self.waiting.capacity() - self.waiting.len() {
            return Ok(self.keep(piece));
        }
        self.flush()?;
        let capacity = self.waiting.capacity();
        if capacity == 0 {
            return self.sink.write(piece);
        }
        Ok(self.keep(&piece[..piece.len().min(capacity)]))
    }
}

// Passes on the first bytes, as many as the sink takes before it fails.
#[tactic(auto, using(crate::proofs::Known::known_next))]
fn pass_on<S: Sink>(sink: &mut S, bytes: &[u8]) -> (usize, Result<(), SinkError>)
    ensures count { result.0 ≤ length bytes.now }
    ensures all { OnOk result.1 (result.0 ≡ length bytes.now) }
    ensures written { GrewByFirst (S.written sink.old) (S.written sink.new) bytes.now result.0 }
    ensures no_fault { OnOk result.1 (S.faults sink.new ≡ S.faults sink.old) }
    ensures fault { OnErr result.1 (Rose (S.faults sink.old) (S.faults sink.new)) }
    ensures faults_never_fall { S.faults sink.old ≤ S.faults sink.new }
    ensures ok_with_room { length bytes.now ≤ S.room sink.old → IsOk result.1 }
    ensures room_left { S.room sink.old ≤ S.room sink.new + result.0 }
{
    let mut count = 0usize;
    while count < bytes.len() {
        match sink.write(&bytes[count..]) {
            Ok(taken) => count += taken,
            Err(error) => return (count, Err(error)),
        }
    }
    (count, Ok(()))
}

fn remove_front(bytes: &mut Vec<u8>, count: usize)
    requires { count ≤ vec_len bytes.old }
    ensures items { bytes.new.items ≡ drop count bytes.old.items }
    ensures capacity { vec_capacity bytes.new ≡ vec_capacity bytes.old }
{
    let len = bytes.len();
    bytes.as_mut_slice().copy_within(count..len, 0);
    bytes.truncate(len - count);
}
