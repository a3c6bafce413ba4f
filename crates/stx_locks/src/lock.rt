// What a row's lock is: who holds it.
ghost use Rattle.std.specs.Prelude.{◌≡◌, Some};
ghost use Rattle.stx_locks.specs.Locks.{asked};

use crate::Ask;

/// The lock of a row: the one transaction that holds it.
#[derive(Clone, Copy)]
pub struct Lock {
    pub holder: u32,
}

impl Lock {
    /// What a transaction is answered that asks for the row.
    pub(crate) fn asked(self, tx: u32) -> Ask
        ensures { result ≡ asked (Some self.holder) tx }
    {
        if self.holder == tx {
            Ask::Granted
        } else {
            Ask::Busy(self.holder)
        }
    }
}
