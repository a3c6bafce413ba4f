// What an access does to the locks and the rows.
ghost use Rattle.std.specs.Prelude.{◌≡◌, ◌==◌, ◌&&◌, ℕ, not, cond, None, IfOk, OnOk, OnErr};
ghost use Rattle.std.specs.FinMap.{get};
ghost use Rattle.std.specs.Option.{is_some};
ghost use Rattle.stx_base.specs.Alone.{row_of};
ghost use Rattle.stx_rows.specs.Rows.{SameValues};
ghost use Rattle.stx_store.specs.inner.Cells.{cell_applied, found_at};
ghost use Rattle.stx_store.specs.inner.Keeping.{IsSame, IsMade, IsAnswered, SameOlder, changes_of};

use std::alloc::Global;
use stx_base::{Access, Answer};
use stx_journal::Changes;
use stx_locks::LockTable;
use stx_rows::Rows;
use stx_scenario::{List, NoMemory, RowNo};

pub(crate) fn row_named(access: Access) -> RowNo
    ensures { result.0 ≡ row_of access }
{
    match access {
        Access::Read(row) | Access::Write(row, _) | Access::Erase(row) => row,
    }
}

/// What an access answers where its row has this value.
pub(crate) fn answer_at(access: Access, value: Option<i64>) -> Answer
    ensures { result ≡ found_at value access }
{
    match (access, value) {
        (Access::Read(_), Some(found)) => Answer::Found(found),
        (Access::Read(_), None) => Answer::Absent,
        _ => Answer::Done,
    }
}

/// An access of a transaction, which holds the row from then on, unless another one holds it. For want of memory the row
/// is given back that was just locked for it.
pub(crate) fn make_access(
    locks: &mut LockTable,
    rows: &mut Rows,
    alloc: Global,
    tx: u32,
    access: Access,
) -> Result<Answer, NoMemory>
    ensures ok { IfOk result (λ answer. IsAnswered access tx answer locks.old locks.new rows.old rows.new) }
    ensures err { OnErr result (IsSame locks.old locks.new rows.old rows.new) }
{
    let row = row_named(access);
    match locks.holder(row) {
        Some(holder) if holder == tx => change(rows, alloc, tx, access),
        Some(holder) => Ok(Answer::Busy(holder)),
        None => {
            locks.ask(alloc, row, tx)?;
            let answer = change(rows, alloc, tx, access);
            if answer.is_err() {
                locks.give_back(row);
            }
            answer
        }
    }
}

/// What a transaction's access does to a row that it holds.
fn change(rows: &mut Rows, alloc: Global, tx: u32, access: Access) -> Result<Answer, NoMemory>
    ensures answer { IfOk result (λ answer. answer ≡ found_at (get rows.old.values (row_of access)) access) }
    ensures ok { OnOk result (IsMade access tx rows.old rows.new) }
    ensures err { OnErr result (SameValues rows.old rows.new) }
    ensures err_older { OnErr result (SameOlder rows.old rows.new) }
{
    match access {
        Access::Read(row) => Ok(answer_at(access, rows.read(row))),
        Access::Write(row, value) => {
            rows.write(alloc, tx, row, value)?;
            Ok(Answer::Done)
        }
        Access::Erase(row) => {
            rows.erase(alloc, tx, row)?;
            Ok(Answer::Done)
        }
    }
}

/// What an access outside a transaction does to a row that nobody holds, and what it changes.
pub(crate) fn put(rows: &mut Rows, alloc: Global, access: Access) -> Result<Changes, NoMemory>
    ensures changes { IfOk result (λ changes. changes ≡ changes_of (get rows.old.values (row_of access)) access) }
    ensures values { OnOk result ((k : ℕ) → get rows.new.values k ≡ cell_applied k (get rows.old.values k) access) }
    ensures older { SameOlder rows.old rows.new }
    ensures err { OnErr result (SameValues rows.old rows.new) }
{
    match access {
        Access::Read(_) => Ok(List::new(alloc)),
        Access::Write(row, value) => rows.put(alloc, row, Some(value)),
        Access::Erase(row) => rows.put(alloc, row, None),
    }
}
