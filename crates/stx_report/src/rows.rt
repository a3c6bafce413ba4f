// The text of the rows that are there at the end, in byte order of their names.
ghost use Rattle.std.specs.Prelude.{◌≡◌, ◌++◌, IfOk, OnOk, map, string_bytes};
ghost use Rattle.stx_base.specs.Report as texts;
ghost use Rattle.stx_report.specs.inner.RowValues.{found_rows};

use crate::text::push_text;
use std::alloc::Global;
use std::collections::BTreeMap;
use stx_scenario::{Name, NoMemory};

/// Appends the rows that have a value, in byte order of their names. The values stand in the order
/// of the names.
pub fn push_rows(
    alloc: Global,
    out: &mut Vec<u8>,
    names: &[Name],
    values: &[Option<i64>],
) -> Result<(), NoMemory>
    ensures { OnOk result (out.new.items ≡
        out.old.items ++ texts.rows_text (texts.by_name (found_rows names.now values.now))) }
{
    let rows = sorted_rows(alloc, names, values)?;
    for (name, value) in &rows {
        let text = row_text(alloc, name, *value)?;
        push_text(out, text.as_str())?;
    }
    Ok(())
}

fn row_text(alloc: Global, name: &str, value: i64) -> Result<String, NoMemory>
    ensures { IfOk result (λ text. string_bytes text ≡ texts.row_text (name.now, value)) }
{
    Ok(format!(in alloc; "row {name} {value}\n")?)
}

/// The names that have a value, each with it. Of two equal names the later value stays.
pub fn sorted_rows<'a>(
    alloc: Global,
    names: &'a [Name],
    values: &[Option<i64>],
) -> Result<BTreeMap<&'a str, i64>, NoMemory>
    ensures { IfOk result (λ rows. map (λ row. (row.0.now, row.1)) rows.entries ≡
        texts.by_name (found_rows names.now values.now)) }
{
    let mut rows = BTreeMap::new(alloc);
    for (name, value) in names.iter().zip(values) {
        if let Some(value) = *value {
            rows.insert(name.as_str(), value)?;
        }
    }
    Ok(rows)
}
