// The rows: the accounts, the stock, the notes and the mails.
ghost use Rattle.std.specs.Prelude.{◌≡◌, IfOk};
ghost use Rattle.stx_load.specs.Generated as defined;

use crate::methods::numbered;
use crate::payments::ACCOUNTS;
use std::alloc::Global;
use stx_scenario::{List, Name, NoMemory, RowNo};

pub(crate) const STOCK_ROW: RowNo = RowNo(16);

pub(crate) const AUDIT_ROW: RowNo = RowNo(17);

pub(crate) const MAILS_ROW: RowNo = RowNo(18);

/// What each account has at first.
const FIRST_BALANCE: i64 = 1_000;

/// What the stock has at first.
const FIRST_STOCK: i64 = 100_000;

pub(crate) fn row_names(alloc: Global) -> Result<List<Name>, NoMemory>
    ensures { IfOk result (λ names. names ≡ defined.row_names) }
{
    let mut names = List::new(alloc);
    for account in 0..ACCOUNTS {
        names.push(numbered(alloc, "acct", account)?)?;
    }
    names.push(Name::new(alloc, "stock")?)?;
    names.push(Name::new(alloc, "audit")?)?;
    names.push(Name::new(alloc, "mails")?)?;
    Ok(names)
}

pub(crate) fn first_values(alloc: Global) -> Result<List<i64>, NoMemory>
    ensures { IfOk result (λ values. values ≡ defined.first_values) }
{
    let mut values = vec![in alloc; FIRST_BALANCE; ACCOUNTS as usize]?;
    values.push(FIRST_STOCK)?;
    values.push(0)?;
    values.push(0)?;
    Ok(List::from_vec(values))
}
