// A source over bytes in memory, which fails where it is told to.
ghost use Rattle.std.specs.Prelude.{◌≡◌, ℕ, ◌+◌, ◌<◌, ◌≤◌, ◌↔◌, [], length, min, take, Some, IsErr, IfOk};
ghost use Rattle.stx_outside.specs.MemoryEnds.{ReadFails, read_count, after_read};
ghost use Rattle.stx_outside.specs.Streams.{HasCause, Reads};

use crate::{Failed, Source};
use std::marker::Model;

/// A source over bytes in memory. It gives at most `chunk` bytes a read, and fails at the reads whose
/// numbers, counted from 1, are listed.
#[derive(Debug, Drop)]
pub struct MemorySource {
    bytes: Vec<u8>,
    given: usize,
    chunk: usize,
    fail_at: Vec<u64>,
    calls: u64,
    faults: u64,
}

impl Model for MemorySource {
    ghost use Rattle.std.specs.Prelude.{ℕ, ◌<◌, ◌≤◌, drop, vec_len};
    ghost use Rattle.stx_outside.specs.MemoryEnds.{SourceState};

    ghost Value = { SourceState };

    ghost view = { λ s. record {
      left = drop s.given s.bytes.items;
      chunk = s.chunk;
      fail_at = s.fail_at.items;
      calls = s.calls;
      faults = s.faults;
    } };

    ghost invariant = { λ s. (s.given ≤ vec_len s.bytes) × (0 < s.chunk) };
}

impl MemorySource {
    /// A source of these bytes that wasn't read yet.
    pub fn new(bytes: Vec<u8>, chunk: usize, fail_at: Vec<u64>) -> Self
        requires { 0 < chunk }
        ensures { result ≡ record {
          left = bytes.items;
          chunk = chunk;
          fail_at = fail_at.items;
          calls = 0;
          faults = 0;
        } }
    {
        MemorySource {
            bytes,
            given: 0,
            chunk,
            fail_at,
            calls: 0,
            faults: 0,
        }
    }
}

impl Source for MemorySource {
    ghost left = { λ source. Some source.left };

    ghost faults = { λ source. source.faults };

    ghost turns = { λ source. source.calls };

    fn read(&mut self, into: &mut [u8]) -> Result<usize, Failed>
        // As every source.
        ensures bytes { Reads (Some self.old.left) (Some self.new.left) result into.new }
        ensures cause { HasCause self.old.faults self.new.faults result }
        ensures turn { self.new.calls ≤ self.old.calls + 1 }

        // When it fails, how many bytes it gives, and what it leaves.
        ensures fails { IsErr result ↔ ReadFails self.old }
        ensures count { IfOk result (λ count. count ≡ read_count self.old (length into.old)) }
        ensures after { self.new ≡ after_read self.old result }
    {
        self.calls = self.calls.saturating_add(1);
        if self.fail_at.contains(&self.calls) {
            self.faults = self.faults.saturating_add(1);
            return Err(Failed);
        }
        let count = copy_front(&self.bytes[self.given..], into, self.chunk);
        self.given += count;
        Ok(count)
    }
}

// Copies the first bytes of `from` to the front of `into`, at most a chunk, and says how many.
fn copy_front(from: &[u8], into: &mut [u8], chunk: usize) -> usize
    ensures count { result ≡ min chunk (min (length into.old) (length from.now)) }
    ensures front { take result into.new ≡ take result from.now }
{
    let count = chunk.min(into.len()).min(from.len());
    into[..count].copy_from_slice(&from[..count]);
    count
}
