ghost use Rattle.std.specs.Prelude.{◌≡◌, ◌+◌, ◌<◌, ◌≤◌, ◌++◌, ◌↔◌, ◌⊎◌, IfOk, IsErr, IsOk, IsTrue, OnErr, OnOk, Some, length, take};
ghost use Rattle.cs_io.specs.Faults.{next_count};
ghost use Rattle.cs_io.specs.MemorySink.{fails_next, free_capacity, new_sink, sure_room, taken_size};

use crate::failing::is_failing;
use crate::{Sink, SinkError};
use std::alloc::{AllocError, Global};
use std::marker::Model;

/// A sink that keeps its bytes in memory, up to a capacity, and of which chosen writes fail.
///
/// It tells its bytes. Where no call is chosen to fail it has room for its free capacity, and else
/// it is sure of none.
#[derive(Debug, Drop)]
pub struct MemorySink {
    bytes: Vec<u8>,
    capacity: usize,
    step: usize,
    failing: Vec<u32>,
    calls: u64,
    faults: u64,
}

impl Model for MemorySink {
    ghost use Rattle.std.specs.Prelude.{◌<◌, ◌≤◌, vec_len, vec_capacity};
    ghost use Rattle.cs_io.specs.MemorySink.{SinkState};

    ghost Value = { SinkState };

    ghost view = { λ sink. record {
      written = sink.bytes.items;
      capacity = sink.capacity;
      step = sink.step;
      failing = sink.failing.items;
      calls = sink.calls;
      faults = sink.faults;
    } };

    ghost invariant = { λ sink.
        (0 < sink.step)
        × (vec_len sink.bytes ≤ sink.capacity)
        × (sink.capacity ≤ vec_capacity sink.bytes) };
}

impl MemorySink {
    /// An empty sink for `capacity` bytes, which takes at most `step` of them in a call. The step is
    /// at least 1.
    ///
    /// `failing` has the numbers, from 0, of the calls of `write` that are to fail. All memory is
    /// taken here.
    pub fn new(
        alloc: Global,
        capacity: usize,
        step: usize,
        failing: Vec<u32>,
    ) -> Result<MemorySink, AllocError>
        requires { 0 < step }
        ensures { IfOk result (λ sink. sink ≡ new_sink capacity step failing.items) }
    {
        let bytes = Vec::with_capacity(alloc, capacity)?;
        Ok(MemorySink {
            bytes,
            capacity,
            step,
            failing,
            calls: 0,
            faults: 0,
        })
    }

    /// The bytes that it has taken.
    pub fn written(&self) -> &[u8]
        ensures { result.now ≡ self.now.written }
    {
        &self.bytes
    }
}

impl Sink for MemorySink {
    ghost written = { λ sink. Some sink.written };

    ghost faults = { λ sink. sink.faults };

    ghost room = { sure_room };

    /// As every sink. A write into a full sink fails too.
    fn write(&mut self, piece: &[u8]) -> Result<usize, SinkError>
        requires { 0 < length piece.now }

        // What every sink promises.
        ensures at_least_one { IfOk result (λ count. 0 < count) }
        ensures within_piece { IfOk result (λ count. count ≤ length piece.now) }
        ensures ok { IfOk result (λ count.
            self.new.written ≡ self.old.written ++ take count piece.now) }
        ensures err { OnErr result (self.new.written ≡ self.old.written) }
        ensures faults_never_fall { self.old.faults ≤ self.new.faults }
        ensures ok_with_room { 0 < sure_room self.old → IsOk result }
        ensures room_left { IfOk result (λ count.
            sure_room self.old ≤ sure_room self.new + count) }

        // Which calls fail, and how much the others take.
        ensures failed { IsErr result
            ↔ (IsTrue (fails_next self.old) ⊎ (free_capacity self.old ≡ 0)) }
        ensures count { IfOk result (λ count. count ≡ taken_size self.old (length piece.now)) }

        // The counts.
        ensures fault { OnErr result (self.new.faults ≡ next_count self.old.faults) }
        ensures no_fault { OnOk result (self.new.faults ≡ self.old.faults) }
        ensures calls { self.new.calls ≡ next_count self.old.calls }

        // What stays.
        ensures same_capacity { self.new.capacity ≡ self.old.capacity }
        ensures same_step { self.new.step ≡ self.old.step }
        ensures same_failing { self.new.failing ≡ self.old.failing }
    {
        let call = self.calls;
        self.calls = self.calls.saturating_add(1);
        let free = self.capacity - self.bytes.len();
        if free == 0 || is_failing(&self.failing, call) {
            self.faults = self.faults.saturating_add(1);
            return Err(SinkError::Failed);
        }
        let count = piece.len().min(self.step).min(free);
        self.bytes.extend_from_slice(&piece[..count]).unwrap();
        Ok(count)
    }
}
