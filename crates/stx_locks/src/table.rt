// The table of locks.
ghost use Rattle.std.specs.Prelude.{◌≡◌, ◌==◌, ◌&&◌, ℕ, None, IfOk, OnOk, OnErr, cond, ◌∷◌, ◌++◌, []};
ghost use Rattle.std.specs.List.{list_any};
ghost use Rattle.std.specs.Bool.{nat_eq};
ghost use Rattle.std.specs.FinMap.{get as holder_of, empty};
ghost use Rattle.indexmap.specs.IndexMap.{get};
ghost use Rattle.stx_locks.specs.Locks.{asked, after_asked, unless_held_by};
ghost use Rattle.stx_locks.specs.inner.Taken.{is_held_by, rows_of};

use crate::lock::Lock;
use indexmap::IndexMap;
use std::alloc::Global;
use std::marker::Model;
use stx_scenario::{NoMemory, RowNo};

/// What a transaction is answered that asks for a row.
#[derive(Clone, Copy, Debug, PartialEq, Eq)]
pub enum Ask {
    /// It holds the row now.
    Granted,
    /// The transaction with this number holds the row; nothing was changed.
    Busy(u32),
}

/// The locks of all transactions, seen as the map from the rows that are held to the transactions that hold them.
#[derive(Drop)]
pub struct LockTable {
    locks: IndexMap<u32, Lock>,
    /// Of each transaction that has locked rows, among others these rows.
    taken: IndexMap<u32, Vec<u32>>,
}

impl Model for LockTable {
    ghost use Rattle.std.specs.Coded.{coded_ℕ};
    ghost use Rattle.std.specs.FinMap as finite;
    ghost use Rattle.stx_locks.specs.Locks.{LockMap};

    ghost Value = { LockMap };

    ghost coded = { finite.code coded_ℕ coded_ℕ };

    ghost use Rattle.stx_locks.specs.inner.Taken.{holders_in, ListsHeld};

    ghost view = { λ t. holders_in t.locks.entries };

    ghost invariant = { λ t. ListsHeld t.locks.entries t.taken.entries };
}

impl LockTable {
    /// No locks. It takes no memory.
    pub fn new(alloc: Global) -> LockTable
        ensures { (k : ℕ) → holder_of result k ≡ None }
    {
        LockTable {
            locks: IndexMap::new(alloc),
            taken: IndexMap::new(alloc),
        }
    }

    /// Asks for a row, which the transaction holds from then on, unless another one holds it. For want of memory nothing
    /// is changed.
    pub fn ask(&mut self, alloc: Global, row: RowNo, tx: u32) -> Result<Ask, NoMemory>
        ensures answer { IfOk result (λ answer. answer ≡ asked (holder_of self.old row.0) tx) }
        ensures ok { OnOk result ((k : ℕ) → holder_of self.new k ≡ cond (k == row.0) (after_asked (holder_of self.old k) tx) (holder_of self.old k)) }
        ensures err { OnErr result (self.new ≡ self.old) }
    {
        if let Some(lock) = lock_of(&self.locks, row.0) {
            return Ok(lock.asked(tx));
        }
        list(&mut self.taken, alloc, tx, row.0)?;
        self.locks.insert(row.0, Lock { holder: tx })?;
        Ok(Ask::Granted)
    }

    /// The transaction that holds a row.
    pub fn holder(&self, row: RowNo) -> Option<u32>
        ensures { result ≡ holder_of self.now row.0 }
    {
        match lock_of(&self.locks, row.0) {
            Some(lock) => Some(lock.holder),
            None => None,
        }
    }

    /// Frees one row. It takes no memory.
    pub fn give_back(&mut self, row: RowNo)
        ensures { (k : ℕ) → holder_of self.new k ≡ cond (k == row.0) None (holder_of self.old k) }
    {
        self.locks.swap_remove(&row.0);
    }

    /// Frees all rows of a transaction. It takes no memory, and looks at no row that others have locked.
    pub fn end(&mut self, tx: u32)
        ensures { (k : ℕ) → holder_of self.new k ≡ unless_held_by tx (holder_of self.old k) }
    {
        if let Some(rows) = self.taken.swap_remove(&tx) {
            free_all(&mut self.locks, tx, &rows);
        }
    }
}

/// Lists a row among those that a transaction has locked.
fn list(
    taken: &mut IndexMap<u32, Vec<u32>>,
    alloc: Global,
    tx: u32,
    row: u32,
) -> Result<(), NoMemory>
    ensures ok { OnOk result ((t : ℕ) → rows_of (get nat_eq taken.new t) ≡ cond (t == tx) (rows_of (get nat_eq taken.old t) ++ row ∷ []) (rows_of (get nat_eq taken.old t))) }
    ensures err { OnErr result ((t : ℕ) → rows_of (get nat_eq taken.new t) ≡ rows_of (get nat_eq taken.old t)) }
{
    if let Some(rows) = taken.get_mut(&tx) {
        rows.push(row)?;
        return Ok(());
    }
    let mut rows = Vec::new(alloc);
    rows.push(row)?;
    taken.insert(tx, rows)?;
    Ok(())
}

/// Frees those of some rows that a transaction holds.
fn free_all(locks: &mut IndexMap<u32, Lock>, tx: u32, rows: &[u32])
    ensures { (k : ℕ) → get nat_eq locks.new k ≡ cond (list_any (nat_eq k) rows.now && is_held_by (get nat_eq locks.old k) tx) None (get nat_eq locks.old k) }
{
    for row in rows {
        free(locks, tx, *row);
    }
}

/// Frees a row where a transaction holds it.
fn free(locks: &mut IndexMap<u32, Lock>, tx: u32, row: u32)
    ensures { (k : ℕ) → get nat_eq locks.new k ≡ cond ((k == row) && is_held_by (get nat_eq locks.old k) tx) None (get nat_eq locks.old k) }
{
    let holds = match lock_of(locks, row) {
        Some(lock) => lock.holder == tx,
        None => false,
    };
    if holds {
        locks.swap_remove(&row);
    }
}

/// The lock of a row, if it is held.
fn lock_of(locks: &IndexMap<u32, Lock>, row: u32) -> Option<Lock>
    ensures { result ≡ get nat_eq locks.now row }
{
    locks.get(&row).copied()
}
