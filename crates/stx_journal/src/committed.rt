// One member of the journal.
ghost use Rattle.std.specs.Prelude.{◌≡◌, IfOk};

use std::alloc::Global;
use stx_scenario::{List, NoMemory, RowNo};

/// Rows whose values differ, by rising row, each with its value after, or `None` where the row is gone.
pub type Changes = List<(RowNo, Option<i64>)>;

/// A transaction that was committed, or a statement outside a transaction, with what it changed.
#[derive(Debug, Drop)]
pub struct Committed {
    /// Its place in the journal, from 1.
    pub number: u64,
    /// The client that made it, from 0.
    pub client: u32,
    /// Its transaction, from 1, or `None` for a statement outside a transaction.
    pub tx: Option<u32>,
    pub changes: Changes,
}

impl Committed {
    /// An equal value.
    pub fn copy(&self, alloc: Global) -> Result<Committed, NoMemory>
        ensures { IfOk result (λ copy. copy ≡ self.now) }
    {
        let changes = Vec::from_slice(alloc, self.changes.as_slice())?;
        Ok(Committed {
            number: self.number,
            client: self.client,
            tx: self.tx,
            changes: List::from_vec(changes),
        })
    }
}
