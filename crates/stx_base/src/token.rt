// Connections and sessions: values that can't be copied and have to be spent.
ghost use Rattle.std.specs.Prelude.{◌≡◌};

use std::marker::Model;

/// A connection that is out of the pool, seen as its number from 1. Only a give or `retire` spends it.
#[must_use]
pub struct Connection {
    number: u32,
}

impl Model for Connection {
    ghost use Rattle.std.specs.Prelude.{ℕ};

    ghost Value = { ℕ };

    ghost view = { λ c. c.number };
}

impl Connection {
    /// A connection with this number. The pool calls it, and tests do.
    pub fn issue(number: u32) -> Self
        ensures { result ≡ number }
    {
        Connection { number }
    }

    /// The connection's number.
    pub fn number(&self) -> u32
        ensures { result ≡ self.now }
    {
        self.number
    }

    /// Spends the connection of a client that is given up.
    pub fn retire(self) {
        let Connection { number: _ } = self;
    }
}

/// A transaction that was begun and hasn't ended, seen as its number from 1. Only a commit, a rollback or `retire`
/// spends it.
#[must_use]
pub struct Session {
    tx: u32,
}

impl Model for Session {
    ghost use Rattle.std.specs.Prelude.{ℕ};

    ghost Value = { ℕ };

    ghost view = { λ s. s.tx };
}

impl Session {
    /// A session with this number. The store calls it, and tests do.
    pub fn issue(number: u32) -> Self
        ensures { result ≡ number }
    {
        Session { tx: number }
    }

    /// The transaction's number.
    pub fn number(&self) -> u32
        ensures { result ≡ self.now }
    {
        self.tx
    }

    /// Spends the session of a client that is given up.
    pub fn retire(self) {
        let Session { tx: _ } = self;
    }
}
