// The values of the rows after all commits.
//
// A first walk over the history keeps of each transaction what no return to a savepoint has undone; a second one lets
// each commit take effect where it stands. A commit takes up its transaction's accesses again; where a transaction commits
// once that is linear in the history, but for the look-ups by a transaction's number.
ghost use Rattle.std.specs.Prelude.{◌≡◌, ℕ, set, IfOk, OnOk, if◌then◌else◌, ◌==◌};
ghost use Rattle.stx_base.specs.Alone.{first_rows};
ghost use Rattle.stx_base.specs.Histories.{store_notes};
ghost use Rattle.stx_base.specs.Stores.{committed_rows, work};
ghost use Rattle.stx_report.specs.inner.Kept.{kept_after, kept_of, nothing, worker};
ghost use Rattle.stx_report.specs.inner.KeptWorks.{kept_by};
ghost use Rattle.stx_report.specs.inner.RowValues.{values_from, written, all_written, committed_values};

use std::alloc::Global;
use std::collections::BTreeMap;
use std::marker::Model;
use stx_base::{Access, Answer, StoreEntry, StoreNote};
use stx_scenario::{NoMemory, Scenario};

/// What is kept of a transaction's work: the accesses that no return has undone, and how many of them there were at
/// each open savepoint.
#[derive(Drop)]
pub struct KeptWork {
    accesses: Vec<Access>,
    /// The innermost savepoint last.
    points: Vec<usize>,
}

impl Model for KeptWork {
    ghost use Rattle.std.specs.Prelude.{reverse};
    ghost use Rattle.stx_report.specs.inner.Kept.{Kept};

    ghost Value = { Kept };

    ghost view = { λ k. record { accesses = k.accesses.items; points = reverse k.points.items } };
}

impl KeptWork {
    fn new(alloc: Global) -> Self
        ensures { result ≡ nothing }
    {
        KeptWork {
            accesses: Vec::new(alloc),
            points: Vec::new(alloc),
        }
    }

    /// Puts one more note of the work to it.
    fn note(&mut self, note: StoreNote) -> Result<(), NoMemory>
        ensures { OnOk result (self.new ≡ kept_after self.old note) }
    {
        match note {
            StoreNote::Access { access, .. } | StoreNote::Auto { access, .. } => {
                self.accesses.push(access)?;
            }
            StoreNote::Point(_) => self.points.push(self.accesses.len())?,
            StoreNote::BackTo(_) => {
                if let Some(count) = self.points.last() {
                    self.accesses.truncate(*count);
                }
            }
            StoreNote::Release(_) => {
                self.points.pop();
            }
            StoreNote::Begin(_) | StoreNote::Commit { .. } | StoreNote::Rollback(_) => {}
        }
        Ok(())
    }
}

/// The value of each row after all commits, in the order of the row names.
pub fn final_values(
    alloc: Global,
    scenario: &Scenario,
    entries: &[StoreEntry],
) -> Result<Vec<Option<i64>>, NoMemory>
    ensures { IfOk result (λ values. values.items ≡
        values_from (committed_rows scenario.now.values entries.now) 0 scenario.now.row_names) }
{
    let works = kept_works(alloc, entries)?;
    let mut values = first_values(alloc, scenario)?;
    for entry in entries {
        commit(&mut values, &works, entry.note);
    }
    Ok(values)
}

/// What is kept of each transaction's work in the whole history, by the transaction's number.
fn kept_works(alloc: Global, entries: &[StoreEntry]) -> Result<BTreeMap<u32, KeptWork>, NoMemory>
    ensures { IfOk result (λ works. (t : ℕ) → kept_by works t ≡ kept_of (work (store_notes entries.now) t)) }
{
    let mut works = BTreeMap::new(alloc);
    for entry in entries {
        if let Some(tx) = worker(entry.note) {
            keep(alloc, &mut works, tx, entry.note)?;
        }
    }
    Ok(works)
}

/// The transaction to whose work a note belongs.
fn worker(note: StoreNote) -> Option<u32>
    ensures { result ≡ worker note }
{
    match note {
        StoreNote::Access {
            answer: Answer::Busy(_),
            ..
        } => None,
        StoreNote::Access { tx, .. } => Some(tx),
        StoreNote::Point(tx) | StoreNote::BackTo(tx) | StoreNote::Release(tx) => Some(tx),
        _ => None,
    }
}

/// Puts one more note to a transaction's work.
fn keep(
    alloc: Global,
    works: &mut BTreeMap<u32, KeptWork>,
    tx: u32,
    note: StoreNote,
) -> Result<(), NoMemory>
    ensures { OnOk result ((t : ℕ) → kept_by works.new t ≡
        (if t == tx then kept_after (kept_by works.old t) note else kept_by works.old t)) }
{
    if let Some(kept) = works.get_mut(&tx) {
        return kept.note(note);
    }
    let mut kept = KeptWork::new(alloc);
    kept.note(note)?;
    works.insert(tx, kept)?;
    Ok(())
}

/// The first values, one for each row name.
fn first_values(alloc: Global, scenario: &Scenario) -> Result<Vec<Option<i64>>, NoMemory>
    ensures { IfOk result (λ values. values.items ≡
        values_from (first_rows scenario.now.values) 0 scenario.now.row_names) }
{
    let mut values = Vec::new(alloc);
    for row in 0..scenario.row_names.len() {
        values.push(scenario.values.get(row).copied())?;
    }
    Ok(values)
}

/// Lets a commit or an own statement take effect, where the note is one.
fn commit(values: &mut [Option<i64>], works: &BTreeMap<u32, KeptWork>, note: StoreNote)
    ensures { values.new ≡ committed_values (kept_by works.now) values.old note }
{
    match note {
        StoreNote::Commit { tx, .. } => {
            if let Some(kept) = works.get(&tx) {
                write_all(values, kept.accesses.as_slice());
            }
        }
        StoreNote::Auto {
            answer: Answer::Busy(_),
            ..
        } => {}
        StoreNote::Auto { access, .. } => write(values, access),
        _ => {}
    }
}

fn write_all(values: &mut [Option<i64>], accesses: &[Access])
    ensures { values.new ≡ all_written values.old accesses.now }
{
    for access in accesses {
        write(values, *access);
    }
}

/// Writes what an access writes, where its row has a place.
fn write(values: &mut [Option<i64>], access: Access)
    ensures { values.new ≡ written values.old access }
{
    match access {
        Access::Read(_) => {}
        Access::Write(row, value) => put(values, row.0 as usize, Some(value)),
        Access::Erase(row) => put(values, row.0 as usize, None),
    }
}

fn put(values: &mut [Option<i64>], at: usize, value: Option<i64>)
    ensures { values.new ≡ set values.old at value }
{
    if at < values.len() {
        values[at] = value;
    }
}
