// The connection and the session that a client holds between its calls.
ghost use Rattle.std.specs.Prelude.{◌≡◌, Some, None};

use std::mem;
use stx_base::{Connection, Session};

/// What a client holds. Dropping it retires both.
pub struct Tokens {
    pub connection: Option<Connection>,
    pub session: Option<Session>,
}

impl Drop for Tokens {
    fn drop(self) {
        let Tokens {
            connection,
            session,
        } = self;
        if let Some(connection) = connection {
            connection.retire();
        }
        if let Some(session) = session {
            session.retire();
        }
    }
}

impl Tokens {
    pub fn none() -> Tokens
        ensures { result ≡ record { connection = None; session = None } }
    {
        Tokens {
            connection: None,
            session: None,
        }
    }

    /// Keeps a connection, where none is held.
    pub fn keep_connection(&mut self, connection: Connection)
        requires free { self.old.connection ≡ None }
        ensures { self.new ≡ record { connection = Some connection; session = self.old.session } }
    {
        match mem::replace(&mut self.connection, Some(connection)) {
            None => {}
            Some(_) => unreachable!(),
        }
    }

    /// Keeps a session, where none is held.
    pub fn keep_session(&mut self, session: Session)
        requires free { self.old.session ≡ None }
        ensures { self.new ≡ record { connection = self.old.connection; session = Some session } }
    {
        match mem::replace(&mut self.session, Some(session)) {
            None => {}
            Some(_) => unreachable!(),
        }
    }

    /// Hands the connection out.
    pub fn spend_connection(&mut self, number: u32) -> Connection
        requires { self.old.connection ≡ Some number }
        ensures connection { result ≡ number }
        ensures rest { self.new ≡ record { connection = None; session = self.old.session } }
    {
        match mem::replace(&mut self.connection, None) {
            Some(connection) => connection,
            None => unreachable!(),
        }
    }

    /// Hands the session out.
    pub fn spend_session(&mut self, number: u32) -> Session
        requires { self.old.session ≡ Some number }
        ensures session { result ≡ number }
        ensures rest { self.new ≡ record { connection = self.old.connection; session = None } }
    {
        match mem::replace(&mut self.session, None) {
            Some(session) => session,
            None => unreachable!(),
        }
    }
}
