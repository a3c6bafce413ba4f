// The pool and the store, each as a value that turn cells take: it keeps one entry for each call that it answered.
ghost use Rattle.std.proofs.Common.{lt_of_le_of_lt, lit<};
ghost use Rattle.std.specs.Prelude.{◌≡◌};
ghost use Rattle.stx_base.proofs.LegalLaws.{PoolLegal-short, StoreLegal-short};
ghost use Rattle.stx_base.specs.Legal.{PoolLegal, StoreLegal};
ghost use Rattle.stx_base.specs.Limits.{most_clients};
ghost use Rattle.stx_base.specs.Notes.{pool_call_is_sure, store_call_is_sure};
ghost use Rattle.stx_shared.specs.Logs.{pool_maker, store_maker, NotesPoolCall, NotesStoreCall, IsPoolCallProper, IsStoreCallProper};

use std::alloc::Global;
use std::marker::Model;
use stx_base::{PoolAnswer, PoolCall, PoolEntry, StoreAnswer, StoreCall, StoreEntry, StoreFacts};
use stx_pool::PoolCore;
use stx_scenario::NoMemory;
use stx_store::StoreCore;
use stx_turn::Logged;

/// A core that is called in turns, seen as the core that it is.
#[derive(Drop)]
pub struct CoreValue<C> {
    core: C,
}

/// A pool as such a value.
pub type PoolValue = CoreValue<PoolCore>;

/// A store as such a value.
pub type StoreValue = CoreValue<StoreCore>;

impl<C> Model for CoreValue<C> {
    ghost Value = { C };

    ghost view = { λ value. value.core };
}

impl<C> CoreValue<C> {
    pub fn new(core: C) -> CoreValue<C>
        ensures { result ≡ core }
    {
        CoreValue { core }
    }

    pub fn into_core(self) -> C
        ensures { result ≡ self }
    {
        self.core
    }
}

impl Logged for PoolValue {
    type Call = PoolCall;

    type Answer = PoolAnswer;

    type Entry = PoolEntry;

    type Fixed = u32;

    ghost fixed = { λ pool. pool.size };

    ghost entries = { λ pool. pool.entries };

    ghost maker = { pool_maker };

    ghost fits = { NotesPoolCall };

    ghost legal = { PoolLegal most_clients };

    ghost proper = { IsPoolCallProper };

    ghost sure = { pool_call_is_sure };

    fn apply(&mut self, alloc: Global, who: u32, call: PoolCall) -> Result<PoolAnswer, NoMemory> {
        self.core.answer(alloc, who - 1, call)
    }

    ghost empty_is_legal = { λ _. tt };

    ghost legal_is_short = { λ facts history legal. lt_of_le_of_lt (PoolLegal-short most_clients facts history legal) (lit< tt) };
}

impl Logged for StoreValue {
    type Call = StoreCall;

    type Answer = StoreAnswer;

    type Entry = StoreEntry;

    type Fixed = StoreFacts;

    ghost fixed = { λ store. store.facts };

    ghost entries = { λ store. store.entries };

    ghost maker = { store_maker };

    ghost fits = { NotesStoreCall };

    ghost legal = { StoreLegal most_clients };

    ghost proper = { IsStoreCallProper };

    ghost sure = { store_call_is_sure };

    fn apply(&mut self, alloc: Global, who: u32, call: StoreCall) -> Result<StoreAnswer, NoMemory> {
        self.core.answer(alloc, who - 1, call)
    }

    ghost empty_is_legal = { λ _. tt };

    ghost legal_is_short = { λ facts history legal. lt_of_le_of_lt (StoreLegal-short most_clients facts history legal) (lit< tt) };
}
