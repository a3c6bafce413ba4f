// The store itself: its entries, and the calls.
ghost use Rattle.std.specs.Prelude.{◌≡◌, ◌<◌, IfOk, OnOk, OnErr, IsTrue, IsOk};
ghost use Rattle.stx_base.specs.Limits.{most_clients};
ghost use Rattle.stx_journal.specs.Journal.{committed_in};
ghost use Rattle.stx_base.specs.Histories.{store_notes_of};
ghost use Rattle.stx_base.specs.Stores.{store_proper};
ghost use Rattle.stx_base.specs.Notes.{store_call_want, store_call_is_sure};
ghost use Rattle.std.specs.Option.{option_copied};
ghost use Rattle.stx_store.specs.Store.{Store, StoreReplies, StoreCallAnswered, new_store, with_store_entry, last_committed};

use crate::access::{answer_at, make_access, put, row_named};
use crate::room::{keep_owed, room_for};
use std::alloc::Global;
use std::marker::Model;
use stx_base::{
    Access, Answer, Session, StoreAnswer, StoreCall, StoreEntry, StoreFacts, StoreNote, Want,
};
use stx_journal::{Committed, Journal};
use stx_locks::LockTable;
use stx_rows::Rows;
use stx_scenario::{List, NoMemory};

/// A store of rows, seen as what it is made with and the entries of all calls so far.
///
/// Each call has to be proper after its client's own entries. It answers with the store's reply and adds one entry; for
/// want of memory it answers `NoMemory` and changes nothing. The calls that end a transaction, go back to a savepoint
/// or release it take no memory: the one that began or opened it has kept the room.
#[derive(Drop)]
pub struct StoreCore {
    facts: StoreFacts,
    entries: Vec<StoreEntry>,
    /// How many entries more there is room for: the ends of what has begun.
    owed: usize,
    /// How many transactions were begun.
    begun: u32,
    locks: LockTable,
    rows: Rows,
    journal: Journal,
}

impl Model for StoreCore {
    ghost use Rattle.std.specs.Prelude.{vec_len, vec_capacity};
    ghost use Rattle.stx_store.specs.Store.{Store};
    ghost use Rattle.stx_store.specs.inner.Keeping.{KeepsAll};

    ghost Value = { Store };

    ghost view = { λ s. record { facts = s.facts; entries = s.entries.items } };

    ghost invariant = { λ s. KeepsAll s.facts s.entries.items s.owed (vec_len s.entries) (vec_capacity s.entries) s.begun s.locks s.rows s.journal };
}

impl StoreCore {
    /// A store with these first values, in the order of the rows.
    pub fn new(alloc: Global, values: &List<i64>) -> Result<StoreCore, NoMemory>
        ensures { IfOk result (λ store. store ≡ new_store (record { values = values.now })) }
    {
        let rows = Rows::new(alloc, values)?;
        let values = Vec::from_slice(alloc, values.as_slice())?;
        Ok(StoreCore {
            facts: StoreFacts {
                values: List::from_vec(values),
            },
            entries: Vec::new(alloc),
            owed: 0,
            begun: 0,
            locks: LockTable::new(alloc),
            rows,
            journal: Journal::new(alloc),
        })
    }

    /// Begins a transaction.
    pub fn begin(&mut self, alloc: Global, client: u32) -> Result<Session, NoMemory>
        requires client { client < most_clients }
        requires proper { IsTrue (store_proper (store_notes_of self.old.entries client) Want.Begin) }
        ensures ok { IfOk result (λ session. StoreReplies self.old self.new client Want.Begin (StoreNote.Begin session)) }
        ensures err { OnErr result (self.new ≡ self.old) }
    {
        let owed = room_for(&mut self.entries, &mut self.journal, self.owed, 1)?;
        let number = self.begun + 1;
        self.rows.begin(alloc, number)?;
        self.begun = number;
        self.owed = owed;
        self.entries.push_reserved(StoreEntry {
            client,
            note: StoreNote::Begin(number),
        });
        Ok(Session::issue(number))
    }

    /// Reads, writes or erases a row in a transaction, which holds the row from then on, unless another one holds it.
    pub fn access(
        &mut self,
        alloc: Global,
        client: u32,
        tx: u32,
        access: Access,
    ) -> Result<Answer, NoMemory>
        requires client { client < most_clients }
        requires proper { IsTrue (store_proper (store_notes_of self.old.entries client) (Want.Access tx access)) }
        ensures ok { IfOk result (λ answer. StoreReplies self.old self.new client (Want.Access tx access) (StoreNote.Access tx access answer)) }
        ensures err { OnErr result (self.new ≡ self.old) }
    {
        self.owed = room_for(&mut self.entries, &mut self.journal, self.owed, 0)?;
        let answer = make_access(&mut self.locks, &mut self.rows, alloc, tx, access)?;
        self.entries.push_reserved(StoreEntry {
            client,
            note: StoreNote::Access { tx, access, answer },
        });
        Ok(answer)
    }

    /// Opens a savepoint in a transaction.
    #[tactic(auto, unfolding(stx_base::specs::Stores::store_reply))]
    pub fn point(&mut self, alloc: Global, client: u32, tx: u32) -> Result<(), NoMemory>
        requires client { client < most_clients }
        requires proper { IsTrue (store_proper (store_notes_of self.old.entries client) (Want.Point tx)) }
        ensures ok { OnOk result (StoreReplies self.old self.new client (Want.Point tx) (StoreNote.Point tx)) }
        ensures err { OnErr result (self.new ≡ self.old) }
    {
        let owed = room_for(&mut self.entries, &mut self.journal, self.owed, 2)?;
        self.rows.point(alloc, tx)?;
        self.owed = owed;
        self.entries.push_reserved(StoreEntry {
            client,
            note: StoreNote::Point(tx),
        });
        Ok(())
    }

    /// Goes back to a transaction's innermost savepoint, which stays, and so do the locks.
    #[tactic(auto, unfolding(stx_base::specs::Stores::store_reply))]
    pub fn back_to(&mut self, client: u32, tx: u32)
        requires client { client < most_clients }
        requires proper { IsTrue (store_proper (store_notes_of self.old.entries client) (Want.BackTo tx)) }
        ensures { StoreReplies self.old self.new client (Want.BackTo tx) (StoreNote.BackTo tx) }
    {
        self.rows.back_to(tx);
        let note = StoreNote::BackTo(tx);
        keep_owed(&mut self.entries, &mut self.owed, client, note);
    }

    /// Releases a transaction's innermost savepoint.
    #[tactic(auto, unfolding(stx_base::specs::Stores::store_reply))]
    pub fn release(&mut self, client: u32, tx: u32)
        requires client { client < most_clients }
        requires proper { IsTrue (store_proper (store_notes_of self.old.entries client) (Want.Release tx)) }
        ensures { StoreReplies self.old self.new client (Want.Release tx) (StoreNote.Release tx) }
    {
        self.rows.forget(tx);
        let note = StoreNote::Release(tx);
        keep_owed(&mut self.entries, &mut self.owed, client, note);
    }

    /// Commits the transaction of a session, and gives its place in the journal, from 1.
    pub fn commit(&mut self, client: u32, session: Session) -> u64
        requires client { client < most_clients }
        requires proper { IsTrue (store_proper (store_notes_of self.old.entries client) (Want.Commit session)) }
        ensures { StoreReplies self.old self.new client (Want.Commit session) (StoreNote.Commit session result) }
    {
        let tx = session.number();
        session.retire();
        let number = self.journal.list().len() as u64 + 1;
        let changes = self.rows.changes(tx);
        self.locks.end(tx);
        self.journal.append(Committed {
            number,
            client,
            tx: Some(tx),
            changes,
        });
        let note = StoreNote::Commit { tx, number };
        keep_owed(&mut self.entries, &mut self.owed, client, note);
        number
    }

    /// Rolls back the transaction of a session.
    #[tactic(auto, unfolding(stx_base::specs::Stores::store_reply))]
    pub fn rollback(&mut self, client: u32, session: Session)
        requires client { client < most_clients }
        requires proper { IsTrue (store_proper (store_notes_of self.old.entries client) (Want.Rollback session)) }
        ensures { StoreReplies self.old self.new client (Want.Rollback session) (StoreNote.Rollback session) }
    {
        let tx = session.number();
        session.retire();
        self.rows.undo(tx);
        self.locks.end(tx);
        let note = StoreNote::Rollback(tx);
        keep_owed(&mut self.entries, &mut self.owed, client, note);
    }

    /// Reads, writes or erases a row outside a transaction, which commits at once, unless a transaction holds the row.
    pub fn auto(&mut self, alloc: Global, client: u32, access: Access) -> Result<Answer, NoMemory>
        requires client { client < most_clients }
        requires proper { IsTrue (store_proper (store_notes_of self.old.entries client) (Want.Auto access)) }
        ensures ok { IfOk result (λ answer. StoreReplies self.old self.new client (Want.Auto access) (StoreNote.Auto access answer)) }
        ensures err { OnErr result (self.new ≡ self.old) }
    {
        self.owed = room_for(&mut self.entries, &mut self.journal, self.owed, 0)?;
        let row = row_named(access);
        if let Some(other) = self.locks.holder(row) {
            let answer = Answer::Busy(other);
            self.entries.push_reserved(StoreEntry {
                client,
                note: StoreNote::Auto { access, answer },
            });
            return Ok(answer);
        }
        let answer = answer_at(access, self.rows.read(row));
        let changes = put(&mut self.rows, alloc, access)?;
        let number = self.journal.list().len() as u64 + 1;
        self.journal.append(Committed {
            number,
            client,
            tx: None,
            changes,
        });
        self.entries.push_reserved(StoreEntry {
            client,
            note: StoreNote::Auto { access, answer },
        });
        Ok(answer)
    }

    /// Answers a client's call; a session whose transaction it ends is spent. For want of memory the store stays as it
    /// was. A return to a savepoint, a release, a commit and a rollback never lack it.
    pub fn answer(
        &mut self,
        alloc: Global,
        client: u32,
        call: StoreCall,
    ) -> Result<StoreAnswer, NoMemory>
        requires client { client < most_clients }
        requires proper { IsTrue (store_proper (store_notes_of self.old.entries client) (store_call_want call)) }
        ensures ok { IfOk result (λ answer. StoreCallAnswered self.old self.new client call answer) }
        ensures err { OnErr result (self.new ≡ self.old) }
        ensures sure { IsTrue (store_call_is_sure call) → IsOk result }
    {
        match call {
            StoreCall::Begin => Ok(StoreAnswer::Begun(self.begin(alloc, client)?)),
            StoreCall::Access(tx, access) => {
                Ok(StoreAnswer::Answered(self.access(alloc, client, tx, access)?))
            }
            StoreCall::Auto(access) => {
                Ok(StoreAnswer::Answered(self.auto(alloc, client, access)?))
            }
            StoreCall::Point(tx) => {
                self.point(alloc, client, tx)?;
                Ok(StoreAnswer::Pointed)
            }
            StoreCall::BackTo(tx) => {
                self.back_to(client, tx);
                Ok(StoreAnswer::BackedTo)
            }
            StoreCall::Release(tx) => {
                self.release(client, tx);
                Ok(StoreAnswer::Released)
            }
            StoreCall::Commit(session) => Ok(StoreAnswer::Committed(self.commit(client, session))),
            StoreCall::Rollback(session) => {
                self.rollback(client, session);
                Ok(StoreAnswer::RolledBack)
            }
        }
    }

    /// The entries of all calls so far, in order.
    pub fn entries(&self) -> &[StoreEntry]
        ensures { result.now ≡ self.now.entries }
    {
        self.entries.as_slice()
    }

    /// The entries of all calls, in order. It takes no memory.
    pub fn into_entries(self) -> List<StoreEntry>
        ensures { result ≡ self.entries }
    {
        let StoreCore {
            facts: _,
            entries,
            owed: _,
            begun: _,
            locks: _,
            rows: _,
            journal: _,
        } = self;
        List::from_vec(entries)
    }

    /// All commits, in order, each with what it changed.
    pub fn committed(&self) -> &[Committed]
        ensures { result.now ≡ committed_in self.now.facts.values self.now.entries }
    {
        self.journal.list()
    }

    /// The last commit, with what it changed.
    pub fn last_committed(&self) -> Option<&Committed>
        ensures { option_copied result ≡ last_committed self.now }
    {
        self.journal.last()
    }
}
