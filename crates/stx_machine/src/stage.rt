// Where a client stands: what it does next, or which shared call it wants.
ghost use Rattle.std.specs.Prelude.{◌≡◌};
ghost use Rattle.stx_machine.specs.Machine.{want_of, falls};

use stx_base::{Access, Want};
use stx_scenario::{ClassNo, EventNo, ListenerNo, MethodNo, RowNo};

/// Where an access is made.
#[derive(Clone, Copy, Debug)]
pub enum Place {
    /// In the transaction with this number.
    Transaction(u32),
    /// Outside a transaction, on this connection.
    Connection(u32),
}

/// What a statement does with the answer to its access.
#[derive(Clone, Copy, Debug)]
pub enum Then {
    Nothing,
    /// Throws where the value is less than this.
    Need(i64),
    /// Writes the row's value and this, summed.
    Add(RowNo, i64),
}

/// A bound connection with its transaction, while it is given back.
#[derive(Clone, Copy, Debug)]
pub struct Bound {
    pub connection: u32,
    pub transaction: u32,
    pub read_only: bool,
    pub mark: bool,
}

/// A publication, while its listeners are dealt with.
#[derive(Clone, Copy, Debug)]
pub struct Publication {
    pub event: EventNo,
    /// The listener that was dealt with last, if one was.
    pub after: Option<ListenerNo>,
    /// Whether the listeners become registrations.
    pub registers: bool,
}

/// What the client does next. The first six are done at once; each other one wants a shared call, or nothing more.
#[derive(Clone, Copy, Debug)]
pub enum Stage {
    /// The newest piece of the innermost call has ended, normally or with an exception of this class.
    Over(Option<ClassNo>),
    /// A call that is intercepted was said, and its scope is to be opened.
    Opening {
        method: MethodNo,
        catch: Option<ClassNo>,
    },
    /// The scope of the innermost call completes: its next action is due.
    Completing,
    /// The next listener of a publication is to be dealt with.
    Dealing(Publication),
    /// A round of the innermost call's callbacks begins.
    Rounding,
    /// What was suspended for the innermost call is carried again, and its registrations are to be told.
    Resuming,
    /// A connection, for a statement outside a transaction: its first access, and what is done with the answer.
    Connecting {
        access: Access,
        then: Then,
    },
    Accessing {
        place: Place,
        access: Access,
        then: Then,
    },
    /// To give back the connection of a statement outside a transaction, which then throws this or nothing.
    Returning {
        connection: u32,
        thrown: Option<ClassNo>,
    },
    /// A connection, for the fresh scope of the innermost call.
    Taking,
    /// A transaction on this connection, for the fresh scope of the innermost call.
    Beginning(u32),
    /// A savepoint in this transaction, for the nested scope of the innermost call.
    Pointing(u32),
    Committing(u32),
    RollingBack(u32),
    /// To return to the innermost savepoint.
    GoingBack(u32),
    /// To release it.
    Releasing(u32),
    GivingBack(Bound),
    /// Nothing: all calls are made.
    Done,
    /// Nothing: memory ran out.
    Failed,
}

impl Stage {
    /// Whether it is done at once.
    pub fn falls(self) -> bool
        ensures { result ≡ falls self }
    {
        matches!(
            self,
            Stage::Over(_)
                | Stage::Opening { .. }
                | Stage::Completing
                | Stage::Dealing(_)
                | Stage::Rounding
                | Stage::Resuming
        )
    }

    /// The shared call that it wants; none is wanted of memory that ran out, nor before what is done at once is done.
    pub fn want(self) -> Want
        ensures { result ≡ want_of self }
    {
        match self {
            Stage::Connecting { .. } | Stage::Taking => Want::Take,
            Stage::Accessing { place, access, .. } => match place {
                Place::Transaction(tx) => Want::Access(tx, access),
                Place::Connection(_) => Want::Auto(access),
            },
            Stage::Returning { connection, .. } => Want::Give(connection),
            Stage::Beginning(_) => Want::Begin,
            Stage::Pointing(tx) => Want::Point(tx),
            Stage::Committing(tx) => Want::Commit(tx),
            Stage::RollingBack(tx) => Want::Rollback(tx),
            Stage::GoingBack(tx) => Want::BackTo(tx),
            Stage::Releasing(tx) => Want::Release(tx),
            Stage::GivingBack(bound) => Want::Give(bound.connection),
            Stage::Done => Want::Done,
            _ => Want::Failed,
        }
    }
}
