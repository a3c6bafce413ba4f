// Where bytes go to.
ghost use Rattle.std.specs.Prelude.{ℕ, List, Option};
ghost use Rattle.stx_outside.specs.Streams.{HasCause, Writes};

use crate::Failed;

/// A sink of bytes that counts its faults.
pub trait Sink {
    /// The bytes taken so far, where the sink tells them. No write changes whether it does.
    ghost taken: { Self → Option (List ℕ) };

    /// How often a write has failed. It never falls.
    ghost faults: { Self → ℕ };

    /// Takes the first bytes of a slice, and says how many: at least one of a slice that isn't empty.
    /// A write that fails takes none.
    fn write(&mut self, from: &[u8]) -> Result<usize, Failed>
        ensures bytes { Writes (taken self.old) (taken self.new) result from.now }
        ensures cause { HasCause (faults self.old) (faults self.new) result };
}
