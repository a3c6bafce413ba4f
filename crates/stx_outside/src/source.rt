// Where bytes come from.
ghost use Rattle.std.specs.Prelude.{ℕ, ◌+◌, ◌≤◌, List, Option};
ghost use Rattle.stx_outside.specs.Streams.{HasCause, Reads};

use crate::Failed;

/// A source of bytes that counts its faults.
pub trait Source {
    /// The bytes to come, where the source tells them. No read changes whether it does.
    ghost left: { Self → Option (List ℕ) };

    /// How often a read has failed. It never falls.
    ghost faults: { Self → ℕ };

    /// A number that no read raises by more than one, so that a caller can bound its reads.
    ghost turns: { Self → ℕ };

    /// Puts the next bytes at the front of a slice, and says how many. 0 into a slice that isn't empty is the end.
    /// A read that fails leaves the bytes to come.
    fn read(&mut self, into: &mut [u8]) -> Result<usize, Failed>
        ensures bytes { Reads (left self.old) (left self.new) result into.new }
        ensures cause { HasCause (faults self.old) (faults self.new) result }
        ensures turn { turns self.new ≤ turns self.old + 1 };
}
