// The rows.
ghost use Rattle.std.specs.Prelude.{◌≡◌, ◌==◌, ℕ, ◌∷◌, [], true, length, cond, slice_get, Some, None, OnOk, OnErr, IfOk, IsSome};
ghost use Rattle.std.specs.Bool.{nat_eq};
ghost use Rattle.std.specs.Option.{option_map, unwrap_or, is_some};
ghost use Rattle.std.specs.Ordering.{nat_cmp};
ghost use Rattle.std.specs.FinMap as finite;
ghost use Rattle.indexmap.specs.IndexMap.{get};
ghost use Rattle.stx_base.specs.Alone.{first_rows, net};
ghost use Rattle.stx_rows.specs.Rows.{change_to, kept_last, dropped, emptied, put_back_last, put_back_all, stack_of, SameValues, HasStack};
ghost use Rattle.stx_rows.specs.inner.Undoing.{value_of, flat, noted, joined, innermost_level, emptied_level, levels_in, HasPlaces};

use crate::slots::{Slots, exchange, set, value_of};
use crate::undo::Undo;
use indexmap::IndexMap;
use std::alloc::Global;
use std::marker::Model;
use stx_journal::Changes;
use stx_scenario::{List, NoMemory, RowNo};

/// The rows, seen as the map of their values now, and of each live transaction the stack of maps of older values: one
/// since its begin, and one more since each open savepoint.
///
/// A return, a release, a rollback and a commit take no memory, and look only at rows that their transaction has changed.
#[derive(Drop)]
pub struct Rows {
    slots: Slots,
    undo: IndexMap<u32, Undo>,
}

impl Model for Rows {
    ghost use Rattle.stx_rows.specs.Rows.{RowsView, rows_code};

    ghost Value = { RowsView };

    ghost coded = { rows_code };

    ghost use Rattle.stx_rows.specs.inner.Undoing.{slot_map, stack_map, HavePlaces};

    ghost view = { λ r. record { values = slot_map r.slots.entries; older = stack_map r.undo.entries } };

    ghost invariant = { λ r. HavePlaces r.slots.entries r.undo.entries };
}

impl Rows {
    /// Rows with these values, in their order, and no live transaction.
    pub fn new(alloc: Global, values: &List<i64>) -> Result<Rows, NoMemory>
        ensures values { IfOk result (λ rows. (k : ℕ) → finite.get rows.values k ≡ finite.get (first_rows values.now) k) }
        ensures older { IfOk result (λ rows. (t : ℕ) → finite.get rows.older t ≡ None) }
    {
        let slots = first_slots(alloc, values)?;
        Ok(Rows {
            slots,
            undo: IndexMap::new(alloc),
        })
    }

    /// Makes a transaction live, with nothing changed.
    pub fn begin(&mut self, alloc: Global, tx: u32) -> Result<(), NoMemory>
        ensures values { SameValues self.old self.new }
        ensures ok { OnOk result (HasStack self.old tx (Some (finite.empty ∷ [])) self.new) }
        ensures err { OnErr result (self.new ≡ self.old) }
    {
        self.undo.insert(tx, Undo::new(alloc))?;
        Ok(())
    }

    /// Opens a savepoint.
    pub fn point(&mut self, _alloc: Global, tx: u32) -> Result<(), NoMemory>
        ensures values { SameValues self.old self.new }
        ensures ok { OnOk result (HasStack self.old tx (option_map (λ stack. finite.empty ∷ stack) (finite.get self.old.older tx)) self.new) }
        ensures err { OnErr result (HasStack self.old tx (finite.get self.old.older tx) self.new) }
    {
        mark_in(&mut self.undo, tx)?;
        Ok(())
    }

    /// Sets a row, and keeps what it held where the last map of older values doesn't have the row yet.
    pub fn write(&mut self, alloc: Global, tx: u32, row: RowNo, value: i64) -> Result<(), NoMemory>
        ensures values { OnOk result ((k : ℕ) → finite.get self.new.values k ≡ cond (k == row.0) (Some value) (finite.get self.old.values k)) }
        ensures older { OnOk result (HasStack self.old tx (option_map (kept_last row.0 (finite.get self.old.values row.0)) (finite.get self.old.older tx)) self.new) }
        ensures err { OnErr result (SameValues self.old self.new) }
        ensures err_older { OnErr result (HasStack self.old tx (finite.get self.old.older tx) self.new) }
    {
        self.set(alloc, tx, row, Some(value))
    }

    /// Removes a row, and keeps what it held where the last map of older values doesn't have the row yet.
    pub fn erase(&mut self, alloc: Global, tx: u32, row: RowNo) -> Result<(), NoMemory>
        ensures values { OnOk result ((k : ℕ) → finite.get self.new.values k ≡ cond (k == row.0) None (finite.get self.old.values k)) }
        ensures older { OnOk result (HasStack self.old tx (option_map (kept_last row.0 (finite.get self.old.values row.0)) (finite.get self.old.older tx)) self.new) }
        ensures err { OnErr result (SameValues self.old self.new) }
        ensures err_older { OnErr result (HasStack self.old tx (finite.get self.old.older tx) self.new) }
    {
        self.set(alloc, tx, row, None)
    }

    /// Sets or removes a row outside a transaction, and gives what that changes.
    pub fn put(
        &mut self,
        alloc: Global,
        row: RowNo,
        value: Option<i64>,
    ) -> Result<Changes, NoMemory>
        ensures changes { IfOk result (λ changes. changes ≡ change_to (finite.get self.old.values row.0) row value) }
        ensures values { OnOk result ((k : ℕ) → finite.get self.new.values k ≡ cond (k == row.0) value (finite.get self.old.values k)) }
        ensures older { (t : ℕ) → finite.get self.new.older t ≡ finite.get self.old.older t }
        ensures err { OnErr result (SameValues self.old self.new) }
    {
        let changes = change_of(alloc, row, value_of(&self.slots, row.0), value)?;
        exchange(&mut self.slots, row.0, value)?;
        Ok(changes)
    }

    /// A row's value, if the row is there.
    pub fn read(&self, row: RowNo) -> Option<i64>
        ensures { result ≡ finite.get self.now.values row.0 }
    {
        value_of(&self.slots, row.0)
    }

    /// Puts the last map's values back, which is the innermost savepoint's, and empties it. It takes no memory.
    pub fn back_to(&mut self, tx: u32)
        ensures values { (k : ℕ) → finite.get self.new.values k ≡ finite.get (put_back_last self.old.values (stack_of self.old tx)) k }
        ensures older { HasStack self.old tx (option_map emptied (finite.get self.old.older tx)) self.new }
    {
        put_back_in(&mut self.slots, &mut self.undo, tx);
    }

    /// Drops the last map, which is the innermost savepoint's. Those of its rows that the map below doesn't have move into
    /// that one. It takes no memory.
    pub fn forget(&mut self, tx: u32)
        ensures values { SameValues self.old self.new }
        ensures older { HasStack self.old tx (option_map dropped (finite.get self.old.older tx)) self.new }
    {
        forget_in(&mut self.undo, tx);
    }

    /// Puts all older values back, the last map's first, and ends the transaction. It takes no memory.
    pub fn undo(&mut self, tx: u32)
        ensures values { (k : ℕ) → finite.get self.new.values k ≡ finite.get (put_back_all self.old.values (stack_of self.old tx)) k }
        ensures older { HasStack self.old tx None self.new }
    {
        if let Some(mut undo) = self.undo.swap_remove(&tx) {
            undo.forget_all();
            put_back(&mut self.slots, &mut undo);
        }
    }

    /// Ends a live transaction, and gives its net changes: each row whose value differs from what it was before the
    /// transaction, by rising row. It takes no memory.
    pub fn changes(&mut self, tx: u32) -> Changes
        requires { IsSome (finite.get self.old.older tx) }
        ensures changes { result ≡ net (put_back_all self.old.values (stack_of self.old tx)) self.old.values }
        ensures values { SameValues self.old self.new }
        ensures older { HasStack self.old tx None self.new }
    {
        match self.undo.swap_remove(&tx) {
            Some(undo) => undo.changes(&self.slots),
            None => unreachable!(),
        }
    }

    /// Sets or removes a row, which is put back where what it held can't be kept.
    fn set(
        &mut self,
        _alloc: Global,
        tx: u32,
        row: RowNo,
        value: Option<i64>,
    ) -> Result<(), NoMemory>
        ensures values { OnOk result ((k : ℕ) → finite.get self.new.values k ≡ cond (k == row.0) value (finite.get self.old.values k)) }
        ensures older { OnOk result (HasStack self.old tx (option_map (kept_last row.0 (finite.get self.old.values row.0)) (finite.get self.old.older tx)) self.new) }
        ensures err { OnErr result (SameValues self.old self.new) }
        ensures err_older { OnErr result (HasStack self.old tx (finite.get self.old.older tx) self.new) }
    {
        let before = exchange(&mut self.slots, row.0, value)?;
        match note_in(&mut self.undo, tx, row.0, before) {
            Ok(()) => Ok(()),
            Err(refused) => {
                set(&mut self.slots, row.0, before);
                Err(refused)
            }
        }
    }
}

/// A row's change, if its value differs.
fn change_of(
    alloc: Global,
    row: RowNo,
    before: Option<i64>,
    now: Option<i64>,
) -> Result<Changes, NoMemory>
    ensures { IfOk result (λ changes. changes ≡ change_to before row now) }
{
    let mut changes = List::new(alloc);
    if before != now {
        changes.push((row, now))?;
    }
    Ok(changes)
}

/// The first values, each row with its place.
fn first_slots(alloc: Global, values: &List<i64>) -> Result<Slots, NoMemory>
    ensures { IfOk result (λ slots. (k : ℕ) → value_of (get nat_eq slots k) ≡ slice_get values.now k) }
{
    let count = values.len();
    if count as u64 >= 1 << 32 {
        return Err(NoMemory::uncountable(count, 0));
    }
    let mut slots = IndexMap::new(alloc);
    for place in 0..count {
        slots.insert(place as u32, values.get(place).copied())?;
    }
    Ok(slots)
}

type Undos = IndexMap<u32, Undo>;

/// Opens a level of a transaction.
fn mark_in(undo: &mut Undos, tx: u32) -> Result<(), NoMemory>
    ensures ok { OnOk result ((t : ℕ) → get nat_eq undo.new t ≡ cond (t == tx) (option_map (λ levels. [] ∷ levels) (get nat_eq undo.old tx)) (get nat_eq undo.old t)) }
    ensures err { OnErr result ((t : ℕ) → get nat_eq undo.new t ≡ get nat_eq undo.old t) }
{
    if let Some(undo) = undo.get_mut(&tx) {
        undo.mark()?;
    }
    Ok(())
}

/// Notes a row and the value that it has for a transaction.
fn note_in(undo: &mut Undos, tx: u32, row: u32, value: Option<i64>) -> Result<(), NoMemory>
    ensures ok { OnOk result ((t : ℕ) → get nat_eq undo.new t ≡ cond (t == tx) (option_map (λ levels. noted levels (row, value)) (get nat_eq undo.old tx)) (get nat_eq undo.old t)) }
    ensures err { OnErr result ((t : ℕ) → get nat_eq undo.new t ≡ get nat_eq undo.old t) }
{
    if let Some(undo) = undo.get_mut(&tx) {
        undo.note(row, value)?;
    }
    Ok(())
}

/// Joins the innermost level of a transaction to the one below it.
fn forget_in(undo: &mut Undos, tx: u32)
    ensures { (t : ℕ) → get nat_eq undo.new t ≡ cond (t == tx) (option_map joined (get nat_eq undo.old tx)) (get nat_eq undo.old t) }
{
    if let Some(undo) = undo.get_mut(&tx) {
        undo.forget();
    }
}

/// Puts back what the innermost level of a transaction says, and empties it.
fn put_back_in(slots: &mut Slots, undo: &mut Undos, tx: u32)
    requires { HasPlaces slots.old.entries (flat (levels_in (get nat_eq undo.old tx))) }
    ensures values { (k : ℕ) → value_of (get nat_eq slots.new k) ≡ unwrap_or (finite.find nat_cmp k (innermost_level (levels_in (get nat_eq undo.old tx)))) (value_of (get nat_eq slots.old k)) }
    ensures stays { (k : ℕ) → is_some (get nat_eq slots.old k) ≡ true → is_some (get nat_eq slots.new k) ≡ true }
    ensures undo { (t : ℕ) → get nat_eq undo.new t ≡ cond (t == tx) (option_map emptied_level (get nat_eq undo.old tx)) (get nat_eq undo.old t) }
{
    if let Some(undo) = undo.get_mut(&tx) {
        put_back(slots, undo);
    }
}

/// Puts back what the innermost level says, and empties it.
fn put_back(slots: &mut Slots, undo: &mut Undo)
    requires { HasPlaces slots.old.entries (flat undo.old) }
    ensures values { (k : ℕ) → value_of (get nat_eq slots.new k) ≡ unwrap_or (finite.find nat_cmp k (innermost_level undo.old)) (value_of (get nat_eq slots.old k)) }
    ensures stays { (k : ℕ) → is_some (get nat_eq slots.old k) ≡ true → is_some (get nat_eq slots.new k) ≡ true }
    ensures undo { undo.new ≡ emptied_level undo.old }
{
    while let Some((row, value)) = undo.pop() {
        set(slots, row, value);
    }
}
