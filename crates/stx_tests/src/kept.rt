// The rows and the journal by themselves: what returns, a release, an erase and three commits leave.
use std::alloc::Global;
use std::test::Fail;
use stx_journal::{Committed, RowValue, rows_after};
use stx_rows::Rows;
use stx_scenario::{List, NoMemory, RowNo};

const FIRST: RowNo = RowNo(0);

const SECOND: RowNo = RowNo(1);

/// The values of the two rows, put after those that were seen before.
fn see(seen: &mut List<Option<i64>>, rows: &Rows) -> Result<(), NoMemory> {
    seen.push(rows.read(FIRST))?;
    seen.push(rows.read(SECOND))
}

/// Two returns to one savepoint, a release after them, and a rollback: the two rows after each.
fn seen_after_returns(alloc: Global) -> Result<List<Option<i64>>, NoMemory> {
    let mut seen = List::new(alloc);
    let mut rows = Rows::new(alloc, &List::new(alloc))?;
    rows.begin(alloc, 1)?;
    rows.write(alloc, 1, FIRST, 1)?;
    rows.point(alloc, 1)?;
    rows.write(alloc, 1, FIRST, 2)?;
    rows.back_to(1);
    see(&mut seen, &rows)?;
    rows.erase(alloc, 1, FIRST)?;
    rows.write(alloc, 1, SECOND, 3)?;
    rows.back_to(1);
    see(&mut seen, &rows)?;
    rows.write(alloc, 1, SECOND, 4)?;
    rows.forget(1);
    see(&mut seen, &rows)?;
    rows.undo(1);
    see(&mut seen, &rows)?;
    Ok(seen)
}

static SEEN: [Option<i64>; 8] = [Some(1), None, Some(1), None, Some(1), Some(4), None, None];

#[test]
fn returns_and_a_release_leave_the_older_values(rt: HostRuntime) -> Result<(), Fail> {
    let seen = seen_after_returns(rt.alloc())?;
    assert_eq!(rt; seen.as_slice(), SEEN.as_slice());
    Ok(())
}

#[test]
fn a_row_that_is_written_and_erased_is_absent_and_no_change(rt: HostRuntime) -> Result<(), Fail> {
    let alloc = rt.alloc();
    let mut rows = Rows::new(alloc, &List::new(alloc))?;
    rows.begin(alloc, 1)?;
    rows.write(alloc, 1, FIRST, 1)?;
    assert_eq!(rt; rows.read(FIRST), Some(1));
    rows.erase(alloc, 1, FIRST)?;
    assert_eq!(rt; rows.read(FIRST), None);
    assert_eq!(rt; rows.changes(1).len(), 0);
    Ok(())
}

/// A commit that writes 1 into one row.
fn commit(alloc: Global, number: u64, tx: u32, row: RowNo) -> Result<Committed, NoMemory> {
    let mut changes = List::new(alloc);
    changes.push((row, Some(1)))?;
    Ok(Committed {
        number,
        client: 0,
        tx: Some(tx),
        changes,
    })
}

/// The rows `stock`, `orders`, `audit` and `mails` of a shop, after the commits of its note, its order and its mail.
static SHOP: [RowValue; 4] = [
    RowValue {
        row: RowNo(0),
        value: 2,
    },
    RowValue {
        row: RowNo(1),
        value: 1,
    },
    RowValue {
        row: RowNo(2),
        value: 1,
    },
    RowValue {
        row: RowNo(3),
        value: 1,
    },
];

/// The rows that the shop's three commits leave, where it begins with a stock of 2 and no order.
fn shop(alloc: Global) -> Result<List<RowValue>, NoMemory> {
    let mut values = List::new(alloc);
    values.push(2)?;
    values.push(0)?;
    let mut commits = List::new(alloc);
    commits.push(commit(alloc, 1, 2, RowNo(2))?)?;
    commits.push(commit(alloc, 2, 1, RowNo(1))?)?;
    commits.push(commit(alloc, 3, 3, RowNo(3))?)?;
    rows_after(alloc, &values, commits.as_slice())
}

#[test]
fn a_shops_commits_give_its_rows(rt: HostRuntime) -> Result<(), Fail> {
    let rows = shop(rt.alloc())?;
    assert_eq!(rt; rows.as_slice(), SHOP.as_slice());
    Ok(())
}
