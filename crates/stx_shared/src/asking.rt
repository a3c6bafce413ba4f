// The two cells that all clients share, and each client's seats in them.
ghost use Rattle.std.specs.Prelude.{IfOk, OnErr};
ghost use Rattle.stx_shared.specs.Asking.{IsAt, IsProperCall, IsSameBackend, Asked, NotAsked};

use crate::values::{PoolValue, StoreValue};
use std::alloc::Global;
use std::sync::Wait;
use stx_base::{Call, Reply};
use stx_scenario::NoMemory;
use stx_turn::{Seat, TurnCell};

/// A pool that clients on many threads share.
pub type SharedPool = TurnCell<PoolValue>;

/// A store that clients on many threads share.
pub type SharedStore = TurnCell<StoreValue>;

/// The pool and the store of all clients.
#[derive(Drop)]
pub struct Cells {
    pub pool: SharedPool,
    pub store: SharedStore,
}

/// What one client calls the pool and the store through: its number, from 0, and its seat in each cell.
#[derive(Drop)]
pub struct SharedBackend {
    pub number: u32,
    pub pool: Seat<PoolValue>,
    pub store: Seat<StoreValue>,
}

impl SharedBackend {
    /// Makes a call on the pool or on the store, once it is the seat's turn there: just one step of that cell. What the
    /// call gives back or ends is spent. For want of memory no entry is made.
    pub fn ask<R: Wait>(
        &mut self,
        rt: &R,
        alloc: Global,
        cells: &Cells,
        call: Call,
    ) -> Result<Reply, NoMemory>
        requires cells { IsAt self.old cells.now }
        requires proper { IsProperCall self.old call }
        ensures same { IsSameBackend self.old self.new }
        ensures asked { IfOk result (λ reply. Asked self.old call reply self.new) }
        ensures none { OnErr result (NotAsked self.old call self.new) }
    {
        match call {
            Call::Pool(call) => {
                let answer = cells.pool.step(rt, alloc, &mut self.pool, call)?;
                Ok(Reply::Pool(answer))
            }
            Call::Store(call) => {
                let answer = cells.store.step(rt, alloc, &mut self.store, call)?;
                Ok(Reply::Store(answer))
            }
        }
    }
}
