// A sink into memory that was taken at once, which fails where it is told to.
ghost use Rattle.std.specs.Prelude.{◌≡◌, ℕ, ◌<◌, ◌↔◌, [], Some, IsErr, IfOk};
ghost use Rattle.stx_outside.specs.MemoryEnds.{WriteFails, write_count, after_write};
ghost use Rattle.stx_outside.specs.Streams.{HasCause, Writes};

use crate::{Failed, Sink};
use std::alloc::Global;
use std::marker::Model;
use stx_scenario::NoMemory;

/// A sink into memory. It takes at most `chunk` bytes a write and `room` bytes in all, and fails at the
/// writes whose numbers, counted from 1, are listed, and where there are bytes to write and no room.
#[derive(Debug, Drop)]
pub struct MemorySink {
    bytes: Vec<u8>,
    chunk: usize,
    fail_at: Vec<u64>,
    room: usize,
    calls: u64,
    faults: u64,
}

impl Model for MemorySink {
    ghost use Rattle.std.specs.Prelude.{ℕ, ◌<◌, ◌≤◌, vec_len, vec_capacity};
    ghost use Rattle.stx_outside.specs.MemoryEnds.{SinkState};

    ghost Value = { SinkState };

    ghost view = { λ s. record {
      taken = s.bytes.items;
      chunk = s.chunk;
      fail_at = s.fail_at.items;
      room = s.room;
      calls = s.calls;
      faults = s.faults;
    } };

    // The memory for all of the room is there, so a write takes none.
    ghost invariant = { λ s. (vec_len s.bytes ≤ s.room) × (s.room ≤ vec_capacity s.bytes) × (0 < s.chunk) };
}

impl MemorySink {
    /// An empty sink, with memory for `room` bytes.
    pub fn new(
        alloc: Global,
        chunk: usize,
        fail_at: Vec<u64>,
        room: usize,
    ) -> Result<Self, NoMemory>
        requires { 0 < chunk }
        ensures { IfOk result (λ sink. sink ≡ record {
          taken = [];
          chunk = chunk;
          fail_at = fail_at.items;
          room = room;
          calls = 0;
          faults = 0;
        }) }
    {
        Ok(MemorySink {
            bytes: Vec::with_capacity(alloc, room)?,
            chunk,
            fail_at,
            room,
            calls: 0,
            faults: 0,
        })
    }

    /// The bytes taken so far.
    pub fn taken(&self) -> &[u8]
        ensures { result.now ≡ self.now.taken }
    {
        self.bytes.as_slice()
    }
}

impl Sink for MemorySink {
    ghost taken = { λ sink. Some sink.taken };

    ghost faults = { λ sink. sink.faults };

    fn write(&mut self, from: &[u8]) -> Result<usize, Failed>
        // As every sink.
        ensures bytes { Writes (Some self.old.taken) (Some self.new.taken) result from.now }
        ensures cause { HasCause self.old.faults self.new.faults result }

        // When it fails, how many bytes it takes, and what it leaves.
        ensures fails { IsErr result ↔ WriteFails self.old from.now }
        ensures count { IfOk result (λ count. count ≡ write_count self.old from.now) }
        ensures after { self.new ≡ after_write self.old result from.now }
    {
        self.calls = self.calls.saturating_add(1);
        let room_left = self.room - self.bytes.len();
        if self.fail_at.contains(&self.calls) || (room_left == 0 && !from.is_empty()) {
            self.faults = self.faults.saturating_add(1);
            return Err(Failed);
        }
        let count = self.chunk.min(from.len()).min(room_left);
        self.bytes.extend_from_slice(&from[..count]).unwrap();
        Ok(count)
    }
}
