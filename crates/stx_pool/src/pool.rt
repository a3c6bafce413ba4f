// The pool itself: its history, and which connections are out.
ghost use Rattle.std.specs.Prelude.{◌≡◌, ◌≤◌, ◌<◌, ◌↔◌, length, not, position, IfOk, OnErr, IsTrue, IsOk, IsNone};
ghost use Rattle.stx_base.specs.Limits.{most_clients, most_connections};
ghost use Rattle.stx_base.specs.Histories.{pool_notes, pool_notes_of};
ghost use Rattle.stx_base.specs.Pools.{out, pool_proper, taken_or_empty};
ghost use Rattle.stx_base.specs.Notes.{pool_call_want, pool_call_is_sure};
ghost use Rattle.stx_pool.specs.Pool.{PoolReplies, PoolCallAnswered, new_pool};

use std::alloc::Global;
use std::marker::Model;
use stx_base::{Connection, PoolAnswer, PoolCall, PoolEntry, PoolNote, Want};
use stx_scenario::{List, NoMemory, Roomy};

/// A pool of connections, seen as its size and its history.
#[derive(Drop)]
pub struct PoolCore {
    entries: Roomy<PoolEntry>,
    // Whether each connection is out, from connection 1 on.
    is_out: Vec<bool>,
}

impl Model for PoolCore {
    ghost use Rattle.std.specs.Prelude.{length};
    ghost use Rattle.stx_pool.specs.Pool.{Pool};
    ghost use Rattle.stx_pool.specs.inner.Keeps.{KeepsPool};

    ghost Value = { Pool };

    ghost view = { λ p. record { size = length p.is_out.items; entries = p.entries.items } };

    ghost invariant = { λ p. KeepsPool p.is_out.items p.entries.items p.entries.spare };
}

impl PoolCore {
    /// A pool of the connections 1 to `size`, all in, with an empty history.
    pub fn new(alloc: Global, size: u32) -> Result<PoolCore, NoMemory>
        requires least { 1 ≤ size }
        requires most { size ≤ most_connections }
        ensures { IfOk result (λ pool. pool ≡ new_pool size) }
    {
        Ok(PoolCore {
            entries: Roomy::new(alloc),
            is_out: vec![in alloc; false; size as usize]?,
        })
    }

    /// Takes the least connection that is in, for a client; `None` where every connection is out. The history keeps
    /// either answer. For want of memory the pool stays as it was.
    pub fn take(&mut self, _alloc: Global, client: u32) -> Result<Option<Connection>, NoMemory>
        requires client { client < most_clients }
        requires proper { IsTrue (pool_proper (pool_notes_of self.old.entries client) Want.Take) }
        ensures ok { IfOk result (λ connection. PoolReplies self.old self.new client Want.Take (taken_or_empty connection)) }
        ensures empty { IfOk result (λ connection. IsNone connection ↔ (length (out (pool_notes self.old.entries)) ≡ self.old.size)) }
        ensures err { OnErr result (self.new ≡ self.old) }
    {
        // Room for this call, and for the give of each connection that is then out.
        self.entries.reserve(self.is_out.len() + 1)?;
        match first_in(&self.is_out) {
            Some(place) => {
                let number = place as u32 + 1;
                self.is_out[place] = true;
                self.entries.push(PoolEntry {
                    client,
                    note: PoolNote::Taken(number),
                });
                Ok(Some(Connection::issue(number)))
            }
            None => {
                self.entries.push(PoolEntry {
                    client,
                    note: PoolNote::Empty,
                });
                Ok(None)
            }
        }
    }

    /// Gives a client's connection back. It takes no memory, since the take has kept room for it.
    pub fn give(&mut self, client: u32, connection: Connection)
        requires client { client < most_clients }
        requires proper { IsTrue (pool_proper (pool_notes_of self.old.entries client) (Want.Give connection)) }
        ensures { PoolReplies self.old self.new client (Want.Give connection) (PoolNote.Given connection) }
    {
        let number = connection.number();
        connection.retire();
        self.is_out[number as usize - 1] = false;
        self.entries.push(PoolEntry {
            client,
            note: PoolNote::Given(number),
        });
    }

    /// Answers a client's call; a connection that it gives back is spent. For want of memory the pool stays as it was,
    /// and a give never lacks it.
    pub fn answer(
        &mut self,
        alloc: Global,
        client: u32,
        call: PoolCall,
    ) -> Result<PoolAnswer, NoMemory>
        requires client { client < most_clients }
        requires proper { IsTrue (pool_proper (pool_notes_of self.old.entries client) (pool_call_want call)) }
        ensures ok { IfOk result (λ answer. PoolCallAnswered self.old self.new client call answer) }
        ensures err { OnErr result (self.new ≡ self.old) }
        ensures sure { IsTrue (pool_call_is_sure call) → IsOk result }
    {
        match call {
            PoolCall::Take => Ok(match self.take(alloc, client)? {
                Some(connection) => PoolAnswer::Taken(connection),
                None => PoolAnswer::Empty,
            }),
            PoolCall::Give(connection) => {
                self.give(client, connection);
                Ok(PoolAnswer::Given)
            }
        }
    }

    /// The history: each call with its answer, in order.
    pub fn entries(&self) -> &[PoolEntry]
        ensures { result.now ≡ self.now.entries }
    {
        self.entries.as_slice()
    }

    /// The history, as a list.
    pub fn into_entries(self) -> List<PoolEntry>
        ensures { result ≡ self.entries }
    {
        self.entries.into_list()
    }
}

// The place of the first connection that is in.
fn first_in(is_out: &[bool]) -> Option<usize>
    ensures { result ≡ position (λ flag. not flag) is_out.now }
{
    is_out.iter().position(|flag| !*flag)
}
