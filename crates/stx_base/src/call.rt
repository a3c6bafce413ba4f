// What a client wants of the pool and the store, and the calls and replies that carry it.
use crate::{Access, Answer, Connection, Session};

/// The next shared call of a client, as numbers.
#[derive(Clone, Copy, Debug, PartialEq, Eq)]
pub enum Want {
    Take,
    Give(u32),
    Begin,
    Access(u32, Access),
    Point(u32),
    BackTo(u32),
    Release(u32),
    Commit(u32),
    Rollback(u32),
    Auto(Access),
    /// Nothing more: all of the client's calls are made.
    Done,
    /// Nothing more: memory ran out.
    Failed,
}

/// A call on the pool, with the connection that it spends.
pub enum PoolCall {
    Take,
    Give(Connection),
}

/// What the pool answers.
pub enum PoolAnswer {
    Taken(Connection),
    /// Every connection is out.
    Empty,
    Given,
}

/// A call on the store, with the session that it spends. Transactions are named by their numbers.
pub enum StoreCall {
    Begin,
    Access(u32, Access),
    Point(u32),
    BackTo(u32),
    Release(u32),
    Commit(Session),
    Rollback(Session),
    /// An access outside a transaction, which commits at once unless it is busy.
    Auto(Access),
}

/// What the store answers.
pub enum StoreAnswer {
    Begun(Session),
    Answered(Answer),
    Pointed,
    BackedTo,
    Released,
    /// The number of the commit, from 1.
    Committed(u64),
    RolledBack,
}

/// A call of a client.
pub enum Call {
    Pool(PoolCall),
    Store(StoreCall),
}

/// The reply to a call.
pub enum Reply {
    Pool(PoolAnswer),
    Store(StoreAnswer),
}
