// Rows with their values, in order.
ghost use Rattle.std.specs.Prelude.{◌≡◌, IfOk, OnOk, map};
ghost use Rattle.std.specs.FinMap as finite;
ghost use Rattle.stx_base.specs.Alone.{first_rows};
ghost use Rattle.stx_journal.specs.Journal.{set_row, changed, row_values};

use crate::{Changes, RowValue};
use std::alloc::Global;
use std::collections::BTreeMap;
use std::marker::Model;
use stx_scenario::{List, NoMemory, RowNo};

/// Rows, by their numbers, with their values.
#[derive(Drop)]
pub struct Table {
    values: BTreeMap<u32, i64>,
}

impl Model for Table {
    ghost use Rattle.std.specs.Ordering.{nat_cmp};
    ghost use Rattle.std.specs.FinMap as finite;
    ghost use Rattle.std.specs.Coded.{coded_ℕ, coded_ℤ};
    ghost use Rattle.stx_base.specs.Alone.{RowMap};

    ghost Value = { RowMap };

    ghost coded = { finite.code coded_ℕ coded_ℤ };

    ghost view = { λ t. finite.from_entries t.values.entries };
}

impl Table {
    /// These values, in the order of the rows.
    pub(crate) fn of_values(alloc: Global, values: &List<i64>) -> Result<Table, NoMemory>
        ensures { IfOk result (λ table. table ≡ first_rows values.now) }
    {
        let count = values.len();
        if count as u64 >= 1 << 32 {
            return Err(NoMemory::uncountable(count, 0));
        }
        let mut table = Table {
            values: BTreeMap::new(alloc),
        };
        for place in 0..count {
            table.set(RowNo(place as u32), values.get(place).copied())?;
        }
        Ok(table)
    }

    /// Sets a row's value, or removes the row.
    pub(crate) fn set(&mut self, row: RowNo, value: Option<i64>) -> Result<(), NoMemory>
        ensures { OnOk result (self.new ≡ set_row self.old row.0 value) }
    {
        match value {
            Some(value) => {
                self.values.insert(row.0, value)?;
            }
            None => {
                self.values.remove(&row.0);
            }
        }
        Ok(())
    }

    /// Makes changes, one after the other.
    pub(crate) fn change(&mut self, changes: &Changes) -> Result<(), NoMemory>
        ensures { OnOk result (self.new ≡ changed self.old changes.now) }
    {
        for (row, value) in changes.as_slice() {
            self.set(*row, *value)?;
        }
        Ok(())
    }

    /// The rows in order.
    pub(crate) fn listed(&self, alloc: Global) -> Result<List<RowValue>, NoMemory>
        ensures { IfOk result (λ rows. rows ≡ row_values self.now) }
    {
        let mut rows = List::new(alloc);
        for (row, value) in &self.values {
            rows.push(RowValue {
                row: RowNo(*row),
                value: *value,
            })?;
        }
        Ok(rows)
    }
}
