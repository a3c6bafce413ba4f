// The settings, and numbers of narrower types.
ghost use Rattle.std.specs.Prelude.{◌≡◌};
ghost use Rattle.toml.specs.View.{table_view};
ghost use Rattle.stx_draft.specs.Draft.{settings_in as settings_of_table, settings_of as settings_of_root, natural as natural_of, order_at as order_of_table};

use crate::parts::{flag_at, number_at, table_at, text_at};
use stx_names::mode_in;
use stx_scenario::{Settings, SyncMode};
use toml::Table;

/// The settings of a document, which may be missing.
pub fn settings_of(root: &Table) -> Settings
    ensures { result ≡ settings_of_root (table_view root.now) }
{
    match table_at(root, "settings") {
        Some(table) => settings_in(table),
        None => Settings {
            pool: 8,
            mode: SyncMode::Always,
            nested: true,
        },
    }
}

fn settings_in(table: &Table) -> Settings
    ensures { result ≡ settings_of_table (table_view table.now) }
{
    Settings {
        pool: natural(number_at(table, "pool", 8)),
        mode: mode_in(text_at(table, "sync")).unwrap_or(SyncMode::Always),
        nested: flag_at(table, "nested", true),
    }
}

/// A number that fits, as all do that are in range.
pub fn natural(number: i64) -> u32
    ensures { result ≡ natural_of number }
{
    if 0 <= number && number < 4294967296 {
        number as u32
    } else {
        0
    }
}

/// The order of a callback (Spring: `Ordered`), by default the lowest precedence.
pub fn order_at(table: &Table) -> i32
    ensures { result ≡ order_of_table (table_view table.now) }
{
    let order = number_at(table, "order", 2147483647);
    if -2147483648 <= order && order <= 2147483647 {
        order as i32
    } else {
        0
    }
}
