// The lines of a client's trace.
use crate::{Access, Answer, Ending, Kind};
use stx_scenario::{ClassNo, EventNo, ListenerNo, MethodNo, Propagation, SyncNo};

/// The name of a registration: that of its synchronisation or of its listener.
#[derive(Clone, Copy, Debug, PartialEq, Eq)]
pub enum Label {
    Sync(SyncNo),
    Listener(ListenerNo),
}

/// A line of a trace: something that a client did, or that was done to it.
#[derive(Clone, Copy, Debug, PartialEq, Eq)]
pub enum Line {
    /// The client's call with this place, from 0.
    Top(u32),
    /// A call of a method with an attribute.
    Call {
        method: MethodNo,
        propagation: Propagation,
        read_only: bool,
    },
    /// A call of a method without one.
    Plain(MethodNo),
    /// A call of a method of the same bean.
    This(MethodNo),
    Suspend(Label),
    Resume(Label),
    /// A connection is unbound from the client, or bound to it again.
    Unbind(u32),
    Bind(u32),
    /// A take from the pool: the connection, or nothing where all were out.
    Take(Option<u32>),
    Give(u32),
    Begin(u32),
    /// An access in a transaction.
    Row {
        tx: u32,
        access: Access,
        answer: Answer,
    },
    /// An access outside a transaction.
    Auto {
        access: Access,
        answer: Answer,
    },
    Savepoint(u32),
    BackTo(u32),
    Release(u32),
    Commit {
        tx: u32,
        number: u64,
    },
    Rollback(u32),
    /// A scope was opened; `owns` where it owns synchronisation.
    Opened {
        kind: Kind,
        owns: bool,
    },
    /// An exception arises.
    Throw(ClassNo),
    /// What the rules decide, and the place of the rule that won, from 0, or `None` by default.
    Rules {
        rollback: bool,
        winner: Option<u32>,
    },
    End(Ending),
    /// The transaction is marked rollback-only.
    MarkGlobal,
    /// The nearest scope is marked rollback-only.
    Mark,
    Register(Label),
    Publish(EventNo),
    /// A listener that isn't registered and has no fallback.
    Skip(ListenerNo),
    /// A listener's body runs.
    Listen(ListenerNo),
    BeforeCommit(Label),
    BeforeCompletion(Label),
    AfterCommit(Label),
    AfterCompletion {
        label: Label,
        committed: bool,
    },
    /// The exception of a callback goes no further.
    Swallow(ClassNo),
    /// The statement's `catch` caught an exception.
    Catch(ClassNo),
    /// A call ends, normally or with an exception.
    Leave {
        method: MethodNo,
        thrown: Option<ClassNo>,
    },
}
