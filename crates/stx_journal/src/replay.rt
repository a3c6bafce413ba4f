// The rows after a list of commits.
ghost use Rattle.std.specs.Prelude.{◌≡◌, IfOk};
ghost use Rattle.stx_base.specs.Alone.{first_rows};
ghost use Rattle.stx_journal.specs.Journal.{after_committed, row_values};

use crate::Committed;
use crate::table::Table;
use std::alloc::Global;
use stx_scenario::{List, NoMemory, RowNo};

/// A row with its value.
#[derive(Clone, Copy, Debug, PartialEq, Eq)]
pub struct RowValue {
    pub row: RowNo,
    pub value: i64,
}

/// The rows after these commits, one after the other, from these first values in the order of the rows; by rising row.
pub fn rows_after(
    alloc: Global,
    values: &List<i64>,
    list: &[Committed],
) -> Result<List<RowValue>, NoMemory>
    ensures { IfOk result (λ rows. rows ≡ row_values (after_committed (first_rows values.now) list.now)) }
{
    let mut table = Table::of_values(alloc, values)?;
    for committed in list {
        table.change(&committed.changes)?;
    }
    table.listed(alloc)
}
