// The holder itself: a connection and a session, and what is kept beside them.
ghost use Rattle.std.specs.Prelude.{◌≡◌, ◌+◌, ◌-◌, ◌^◌, ◌<◌, true, false};
ghost use Rattle.std.specs.Option.{is_some};
ghost use Rattle.stx_conn.specs.Bindings.{new_binding};

use std::marker::Model;
use stx_base::{Connection, Session};

/// A connection that is bound with its transaction. It hands out the session, then the connection; or `retire` spends
/// what is left of both.
#[must_use]
pub struct Holder {
    connection: Connection,
    // None once it was handed out to the store.
    session: Option<Session>,
    // The session's number, which is still asked for in the rounds that follow the store's end.
    transaction: u32,
    read_only: bool,
    mark: bool,
    points: u32,
}

impl Model for Holder {
    ghost use Rattle.stx_conn.specs.Bindings.{Binding};
    ghost use Rattle.std.specs.Option.{is_some, ForSome};
    ghost use Rattle.std.specs.Prelude.{◌≡◌};

    ghost Value = { Binding };

    ghost view = { λ h. record {
      connection = h.connection;
      transaction = h.transaction;
      running = is_some h.session;
      read_only = h.read_only;
      mark = h.mark;
      points = h.points;
    } };

    ghost invariant = { λ h. ForSome h.session (λ number. number ≡ h.transaction) };
}

impl Holder {
    /// Binds a connection with the session of a transaction that just began on it.
    pub fn new(connection: Connection, session: Session, read_only: bool) -> Holder
        ensures { result ≡ new_binding connection session read_only }
    {
        let transaction = session.number();
        Holder {
            connection,
            session: Some(session),
            transaction,
            read_only,
            mark: false,
            points: 0,
        }
    }

    /// Marks the transaction for rollback.
    pub fn mark(&mut self)
        ensures { self.new ≡ record self.old { mark = true } }
    {
        self.mark = true;
    }

    /// Takes the transaction's mark away.
    pub fn clear_mark(&mut self)
        ensures { self.new ≡ record self.old { mark = false } }
    {
        self.mark = false;
    }

    /// Counts a savepoint that was made.
    pub fn enter_point(&mut self)
        requires { self.old.points < 2 ^ 32 - 1 }
        ensures { self.new ≡ record self.old { points = self.old.points + 1 } }
    {
        self.points += 1;
    }

    /// Counts a savepoint that was released.
    pub fn leave_point(&mut self)
        requires { 0 < self.old.points }
        ensures { self.new ≡ record self.old { points = self.old.points - 1 } }
    {
        self.points -= 1;
    }

    /// The connection's number, and the transaction's.
    pub fn numbers(&self) -> (u32, u32)
        ensures { result ≡ (self.now.connection, self.now.transaction) }
    {
        (self.connection.number(), self.transaction)
    }

    /// Whether the transaction is marked for rollback.
    pub fn is_marked(&self) -> bool
        ensures { result ≡ self.now.mark }
    {
        self.mark
    }

    pub fn is_read_only(&self) -> bool
        ensures { result ≡ self.now.read_only }
    {
        self.read_only
    }

    /// Hands the session out for the store's commit or rollback. The connection stays bound.
    pub fn end_session(&mut self) -> Session
        requires running { self.old.running ≡ true }
        requires no_points { self.old.points ≡ 0 }
        ensures session { result ≡ self.old.transaction }
        ensures rest { self.new ≡ record self.old { running = false } }
    {
        match self.session.take() {
            Some(session) => session,
            None => unreachable!(),
        }
    }

    /// Hands the connection out, for the pool.
    pub fn part(self) -> Connection
        requires { self.running ≡ false }
        ensures { result ≡ self.connection }
    {
        let (connection, session) = self.into_tokens();
        let None = session else { unreachable!() };
        connection
    }

    // The connection, and the session if it is still there.
    fn into_tokens(self) -> (Connection, Option<Session>)
        ensures connection { result.0 ≡ self.connection }
        ensures session { is_some result.1 ≡ self.running }
    {
        let Holder {
            connection,
            session,
            transaction: _,
            read_only: _,
            mark: _,
            points: _,
        } = self;
        (connection, session)
    }

    /// Retires the connection, and the session if it is still there.
    pub fn retire(self) {
        let (connection, session) = self.into_tokens();
        connection.retire();
        if let Some(session) = session {
            session.retire();
        }
    }
}
