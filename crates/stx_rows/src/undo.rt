// The older values of one transaction: an undo list with a mark at each open savepoint.
ghost use Rattle.std.specs.Prelude.{map, ◌≡◌, ◌==◌, ◌&&◌, ℕ, ◌+◌, ◌<◌, ◌≤◌, [], ◌∷◌, ◌++◌, cond, if◌then◌else◌, reverse, None, OnOk, OnErr, IfOk, IsSome, vec_len, vec_capacity};
ghost use Rattle.std.specs.Option.{option_to_list};
ghost use Rattle.std.specs.Ordering.{nat_cmp};
ghost use Rattle.std.specs.BTreeMap.{get, btree_map_len};
ghost use Rattle.stx_base.specs.Alone.{RowMap, net};
ghost use Rattle.stx_rows.specs.inner.Undoing.{change_row, change_of, noted, joined, flat, PopsLast, FirstsAre, or_first, last_mark, stands_at, AreValues, WereValues};

use crate::slots::{Slots, value_of};
use std::alloc::Global;
use std::collections::BTreeMap;
use std::marker::Model;
use stx_journal::Changes;
use stx_scenario::{List, NoMemory, RowNo};

/// Where a row stands first in an undo list, and the value that it had there.
#[derive(Clone, Copy)]
pub struct First {
    pub place: usize,
    pub value: Option<i64>,
}

/// An undo list, seen as its levels: the entries since each open savepoint, the innermost first, and those before all of
/// them. An entry is a row and the value that it had, and a level's entries stand in the order in which they were made.
#[derive(Drop)]
pub struct Undo {
    older: Vec<(u32, Option<i64>)>,
    marks: Vec<usize>,
    /// Where each row stands first.
    first: BTreeMap<u32, First>,
    /// Empty, with room for a change of each row.
    changes: Vec<(RowNo, Option<i64>)>,
}

impl Model for Undo {
    ghost use Rattle.std.specs.Prelude.{List, vec_len, vec_capacity};
    ghost use Rattle.std.specs.BTreeMap.{btree_map_len};
    ghost use Rattle.stx_rows.specs.inner.Undoing.{Older, levels_of, KeepsUndo};

    ghost Value = { List (List Older) };

    ghost view = { λ u. levels_of u.older.items u.marks.items };

    ghost invariant = { λ u. KeepsUndo u.older.items u.marks.items u.first (vec_len u.changes) (vec_capacity u.changes) };
}

impl Undo {
    /// One empty level. It takes no memory.
    pub(crate) fn new(alloc: Global) -> Undo
        ensures { result ≡ [] ∷ [] }
    {
        Undo {
            older: Vec::new(alloc),
            marks: Vec::new(alloc),
            first: BTreeMap::new(alloc),
            changes: Vec::new(alloc),
        }
    }

    /// Opens a level.
    pub(crate) fn mark(&mut self) -> Result<(), NoMemory>
        ensures ok { OnOk result (self.new ≡ [] ∷ self.old) }
        ensures err { OnErr result (self.new ≡ self.old) }
    {
        self.marks.push(self.older.len())?;
        Ok(())
    }

    /// Notes a row and the value that it has.
    pub(crate) fn note(&mut self, row: u32, value: Option<i64>) -> Result<(), NoMemory>
        ensures ok { OnOk result (self.new ≡ noted self.old (row, value)) }
        ensures err { OnErr result (self.new ≡ self.old) }
    {
        self.older.reserve(1)?;
        let first = First {
            place: self.older.len(),
            value,
        };
        note_first(&mut self.first, &mut self.changes, row, first)?;
        self.older.push_reserved((row, value));
        Ok(())
    }

    /// Takes out the last entry of the innermost level.
    pub(crate) fn pop(&mut self) -> Option<(u32, Option<i64>)>
        ensures { PopsLast self.old result self.new }
    {
        if self.older.len() <= last_mark(&self.marks) {
            return None;
        }
        take_last(&mut self.older, &mut self.first)
    }

    /// Joins the innermost level to the one below it.
    pub(crate) fn forget(&mut self)
        ensures { self.new ≡ joined self.old }
    {
        self.marks.pop();
    }

    /// Joins all levels.
    pub(crate) fn forget_all(&mut self)
        ensures { self.new ≡ flat self.old ∷ [] }
    {
        self.marks.clear();
    }

    /// What has changed, by rising row, where these are the values now: each row whose value differs from the one that it
    /// had first. It takes no memory.
    pub(crate) fn changes(self, slots: &Slots) -> Changes
        ensures { (before now : RowMap) → AreValues slots.now now → WereValues (flat self) before now → result ≡ net before now }
    {
        let Undo {
            older: _,
            marks: _,
            first,
            mut changes,
        } = self;
        for (row, had) in &first {
            push_change(&mut changes, *row, had.value, value_of(slots, *row));
        }
        List::from_vec(changes)
    }
}

/// Where the innermost level begins.
fn last_mark(marks: &[usize]) -> usize
    ensures { result ≡ last_mark (reverse marks.now) }
{
    match marks.last() {
        Some(mark) => *mark,
        None => 0,
    }
}

/// Notes where a row stands first, if it stands nowhere yet, and keeps room for its change.
fn note_first(
    first: &mut BTreeMap<u32, First>,
    changes: &mut Vec<(RowNo, Option<i64>)>,
    row: u32,
    here: First,
) -> Result<(), NoMemory>
    ensures ok { OnOk result ((k : ℕ) → get nat_cmp first.new k ≡ or_first (get nat_cmp first.old k) (if k == row then Some here else None)) }
    ensures err { OnErr result ((k : ℕ) → get nat_cmp first.new k ≡ get nat_cmp first.old k) }
    ensures none { vec_len changes.new ≡ vec_len changes.old }
    ensures room { vec_len changes.old ≡ 0 → btree_map_len first.old ≤ vec_capacity changes.old → btree_map_len first.new ≤ vec_capacity changes.new }
{
    if !first.contains_key(&row) {
        changes.reserve(first.len() + 1)?;
        first.insert(row, here)?;
    }
    Ok(())
}

/// Puts a row's change at the end, if its value differs, in room that was kept.
fn push_change(
    changes: &mut Vec<(RowNo, Option<i64>)>,
    row: u32,
    before: Option<i64>,
    now: Option<i64>,
)
    requires { vec_len changes.old < vec_capacity changes.old }
    ensures items { changes.new.items ≡ changes.old.items ++ map change_row (option_to_list (change_of row before now)) }
    ensures len { vec_len changes.new ≤ vec_len changes.old + 1 }
    ensures capacity { vec_capacity changes.new ≡ vec_capacity changes.old }
{
    if before != now {
        changes.push_reserved((RowNo(row), now));
    }
}

/// Takes out the last entry of an undo list.
fn take_last(
    older: &mut Vec<(u32, Option<i64>)>,
    first: &mut BTreeMap<u32, First>,
) -> Option<(u32, Option<i64>)>
    requires { FirstsAre first.old older.old.items }
    ensures items { older.old.items ≡ older.new.items ++ option_to_list result }
    ensures some { 0 < vec_len older.old → IsSome result }
    ensures firsts { FirstsAre first.new older.new.items }
    ensures len { btree_map_len first.new ≤ btree_map_len first.old }
{
    let (row, value) = older.pop()?;
    drop_first(first, row, older.len());
    Some((row, value))
}

/// Forgets where a row stands first, if it is at this place.
fn drop_first(first: &mut BTreeMap<u32, First>, row: u32, place: usize)
    ensures gone { (k : ℕ) → get nat_cmp first.new k ≡ cond ((k == row) && stands_at (get nat_cmp first.old k) place) None (get nat_cmp first.old k) }
    ensures len { btree_map_len first.new ≤ btree_map_len first.old }
{
    let stands = match first.get(&row).copied() {
        Some(first) => first.place == place,
        None => false,
    };
    if stands {
        first.remove(&row);
    }
}
