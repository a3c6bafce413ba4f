// The note that a call and its reply make together, and the notes that a client has taken in.
ghost use Rattle.std.specs.Prelude.{◌≡◌, ◌<◌, ◌⊎◌, [], Some, IfOk, OnErr, OnOk, IsTrue};
ghost use Rattle.stx_base.specs.Notes.{is_reply_to, note_of as note_in};
ghost use Rattle.stx_machine.specs.Sound.{brought};
ghost use Rattle.stx_model.specs.Reads.{pool_with, store_with};
ghost use Rattle.stx_client.specs.inner.Keeps.{Lacks};

use std::alloc::Global;
use stx_base::{Note, PoolAnswer, PoolNote, Reply, StoreAnswer, StoreNote, Want};
use stx_machine::Tokens;
use stx_scenario::{NoMemory, Roomy};

/// The notes that a client has taken in, with room for one more of each kind.
#[derive(Drop)]
pub(crate) struct Notes {
    pub(crate) pool: Roomy<PoolNote>,
    pub(crate) store: Roomy<StoreNote>,
}

impl Notes {
    /// No notes, with room for one of each kind.
    pub(crate) fn new(alloc: Global) -> Result<Notes, NoMemory>
        ensures pool { IfOk result (λ notes. (notes.pool.items ≡ []) × (0 < notes.pool.spare)) }
        ensures store { IfOk result (λ notes. (notes.store.items ≡ []) × (0 < notes.store.spare)) }
    {
        let mut pool = Roomy::new(alloc);
        let mut store = Roomy::new(alloc);
        pool.reserve(1)?;
        store.reserve(1)?;
        Ok(Notes { pool, store })
    }

    /// Takes a note in, in the room that there is.
    pub(crate) fn push(&mut self, note: Note)
        requires pool { 0 < self.old.pool.spare }
        requires store { 0 < self.old.store.spare }
        ensures pool { self.new.pool.items ≡ pool_with self.old.pool.items note }
        ensures store { self.new.store.items ≡ store_with self.old.store.items note }
    {
        match note {
            Note::Pool(note) => self.pool.push(note),
            Note::Store(note) => self.store.push(note),
        }
    }

    /// Makes room for one more of each kind. The notes stay.
    pub(crate) fn reserve(&mut self) -> Result<(), NoMemory>
        ensures pool { self.new.pool.items ≡ self.old.pool.items }
        ensures store { self.new.store.items ≡ self.old.store.items }
        ensures room { OnOk result ((0 < self.new.pool.spare) × (0 < self.new.store.spare)) }
        ensures full { OnErr result ((self.old.pool.spare ≡ 0) ⊎ (self.old.store.spare ≡ 0)) }
    {
        self.pool.reserve(1)?;
        self.store.reserve(1)?;
        Ok(())
    }
}

/// The note of the reply to what is wanted. What the reply brings is kept.
pub(crate) fn note_of(want: Want, reply: Reply, tokens: &mut Tokens) -> Note
    requires reply { IsTrue (is_reply_to want reply) }
    requires free { Lacks want tokens.old }
    ensures note { note_in want reply ≡ Some result }
    ensures tokens { tokens.new ≡ brought result tokens.old }
{
    match (want, reply) {
        (Want::Take, Reply::Pool(PoolAnswer::Taken(connection))) => {
            let number = connection.number();
            tokens.keep_connection(connection);
            Note::Pool(PoolNote::Taken(number))
        }
        (Want::Take, Reply::Pool(PoolAnswer::Empty)) => Note::Pool(PoolNote::Empty),
        (Want::Give(number), Reply::Pool(PoolAnswer::Given)) => Note::Pool(PoolNote::Given(number)),
        (Want::Begin, Reply::Store(StoreAnswer::Begun(session))) => {
            let number = session.number();
            tokens.keep_session(session);
            Note::Store(StoreNote::Begin(number))
        }
        (Want::Access(tx, access), Reply::Store(StoreAnswer::Answered(answer))) => {
            Note::Store(StoreNote::Access { tx, access, answer })
        }
        (Want::Auto(access), Reply::Store(StoreAnswer::Answered(answer))) => {
            Note::Store(StoreNote::Auto { access, answer })
        }
        (Want::Point(tx), Reply::Store(StoreAnswer::Pointed)) => Note::Store(StoreNote::Point(tx)),
        (Want::BackTo(tx), Reply::Store(StoreAnswer::BackedTo)) => {
            Note::Store(StoreNote::BackTo(tx))
        }
        (Want::Release(tx), Reply::Store(StoreAnswer::Released)) => {
            Note::Store(StoreNote::Release(tx))
        }
        (Want::Commit(tx), Reply::Store(StoreAnswer::Committed(number))) => {
            Note::Store(StoreNote::Commit { tx, number })
        }
        (Want::Rollback(tx), Reply::Store(StoreAnswer::RolledBack)) => {
            Note::Store(StoreNote::Rollback(tx))
        }
        _ => unreachable!(),
    }
}
