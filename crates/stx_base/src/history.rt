// What the pool and the store keep of each call: who made it, and what was answered.
use stx_scenario::RowNo;

/// One access to a row.
#[derive(Clone, Copy, Debug, PartialEq, Eq)]
pub enum Access {
    Read(RowNo),
    Write(RowNo, i64),
    Erase(RowNo),
}

/// What the store answers to an access.
#[derive(Clone, Copy, Debug, PartialEq, Eq)]
pub enum Answer {
    /// A read's: the row has this value.
    Found(i64),
    /// A read's: the row isn't there.
    Absent,
    /// A write's or an erase's.
    Done,
    /// The live transaction with this number has locked the row; nothing was changed.
    Busy(u32),
}

/// A call on the pool, with its answer. Connections are numbered from 1.
#[derive(Clone, Copy, Debug, PartialEq, Eq)]
pub enum PoolNote {
    Taken(u32),
    /// A take that found every connection out.
    Empty,
    Given(u32),
}

/// An entry of the pool's history: a call, its answer and the client that made it, by its number from 0.
#[derive(Clone, Copy, Debug, PartialEq, Eq)]
pub struct PoolEntry {
    pub client: u32,
    pub note: PoolNote,
}

/// A call on the store, with its answer. Transactions are numbered from 1 in the order of their begins.
#[derive(Clone, Copy, Debug, PartialEq, Eq)]
pub enum StoreNote {
    Begin(u32),
    Access {
        tx: u32,
        access: Access,
        answer: Answer,
    },
    /// A savepoint of this transaction (JDBC's `Connection.setSavepoint`).
    Point(u32),
    /// A return to this transaction's innermost savepoint, which stays.
    BackTo(u32),
    /// The release of this transaction's innermost savepoint.
    Release(u32),
    /// The commit of a transaction; `number` is its place in the journal, from 1.
    Commit {
        tx: u32,
        number: u64,
    },
    Rollback(u32),
    /// An access outside a transaction, which commits at once unless it is busy.
    Auto {
        access: Access,
        answer: Answer,
    },
}

/// An entry of the store's history: a call, its answer and the client that made it, by its number from 0.
#[derive(Clone, Copy, Debug, PartialEq, Eq)]
pub struct StoreEntry {
    pub client: u32,
    pub note: StoreNote,
}

/// A note of the pool or of the store.
#[derive(Clone, Copy, Debug, PartialEq, Eq)]
pub enum Note {
    Pool(PoolNote),
    Store(StoreNote),
}
