// What the transaction manager decides at the opening and at the ending of a scope.
use stx_scenario::ClassNo;

/// What a scope is (Spring's `TransactionStatus`).
#[derive(Clone, Copy, Debug, PartialEq, Eq)]
pub enum Kind {
    /// It began its transaction.
    Fresh,
    /// It takes part in the transaction that was there.
    Join,
    /// It is a savepoint of the transaction that was there.
    Point,
    /// It has no transaction.
    Empty,
}

/// What the manager does at the opening of a scope (`AbstractPlatformTransactionManager`, `getTransaction`).
#[derive(Clone, Copy, Debug, PartialEq, Eq)]
pub enum Opening {
    /// The call is refused with an exception of this class.
    Refuse(ClassNo),
    Fresh { suspends: bool, owns: bool },
    Join,
    Point,
    Empty { suspends: bool, owns: bool },
}

/// How a scope ends.
#[derive(Clone, Copy, Debug, PartialEq, Eq)]
pub enum Ending {
    Commit,
    Rollback,
    /// The scope wanted to commit, and its transaction was marked rollback-only (`UnexpectedRollbackException`).
    Unexpected,
}

/// One step of a scope's completion (`AbstractPlatformTransactionManager`, `processCommit`, `processRollback`).
#[derive(Clone, Copy, Debug, PartialEq, Eq)]
pub enum Action {
    RoundBeforeCompletion,
    RoundAfterCommit,
    /// The callbacks are told whether the scope has committed.
    RoundAfterCompletion { committed: bool },
    CommitStore,
    RollbackStore,
    BackToPoint,
    ReleasePoint,
    MarkGlobally,
    /// UnexpectedRollbackException arises.
    ThrowUnexpected,
    GiveBack,
    /// What was suspended is resumed.
    Resumption,
}

/// The callbacks of the registrations, one round after the other (`TransactionSynchronization`).
#[derive(Clone, Copy, Debug, PartialEq, Eq)]
pub enum Round {
    BeforeCommit,
    BeforeCompletion,
    AfterCommit,
    AfterCompletion,
}
