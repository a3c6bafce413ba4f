// Want of memory, the one error that no caller can foresee.
ghost use Rattle.std.specs.Prelude.{◌+◌, ◌^◌, ◌≤◌};

use std::alloc::{AllocError, AllocFailed};

/// A growth was refused. Whoever is given it finds its object as the call's contract says, mostly unchanged.
///
/// Its field is private, so that only a refusal makes one: std's, or that of a count that would not fit.
#[derive(Clone, Copy, Debug, PartialEq, Eq)]
pub struct NoMemory {
    refused: (),
}

impl NoMemory {
    /// So many items and so many more have no numbers of 32 bits.
    pub fn uncountable(items: usize, more: usize) -> Self
        requires { 2 ^ 32 ≤ items + more }
    {
        NoMemory { refused: () }
    }
}

impl From<AllocError> for NoMemory {
    fn from(_: AllocError) -> Self {
        NoMemory { refused: () }
    }
}

impl<T: Drop> From<AllocFailed<T>> for NoMemory {
    fn from(_: AllocFailed<T>) -> Self {
        NoMemory { refused: () }
    }
}
