// The values of rows. A row that is gone keeps its place, so that no return to an older value takes memory.
ghost use Rattle.std.specs.Prelude.{◌≡◌, ◌==◌, ℕ, true, cond, IfOk, OnOk, OnErr};
ghost use Rattle.std.specs.Bool.{nat_eq};
ghost use Rattle.std.specs.Option.{is_some};
ghost use Rattle.indexmap.specs.IndexMap.{get};
ghost use Rattle.stx_rows.specs.inner.Undoing.{value_of};

use indexmap::IndexMap;
use stx_scenario::NoMemory;

/// Each row that was ever there, with its value, or `None` where it is gone.
pub type Slots = IndexMap<u32, Option<i64>>;

pub(crate) fn value_of(slots: &Slots, row: u32) -> Option<i64>
    ensures { result ≡ value_of (get nat_eq slots.now row) }
{
    match slots.get(&row) {
        Some(value) => *value,
        None => None,
    }
}

/// Sets the value of a row, with a place for it where it has none, and gives the value that it had.
pub(crate) fn exchange(
    slots: &mut Slots,
    row: u32,
    value: Option<i64>,
) -> Result<Option<i64>, NoMemory>
    ensures before { IfOk result (λ before. before ≡ value_of (get nat_eq slots.old row)) }
    ensures value { OnOk result ((k : ℕ) → value_of (get nat_eq slots.new k) ≡ cond (k == row) value (value_of (get nat_eq slots.old k))) }
    ensures stays { (k : ℕ) → is_some (get nat_eq slots.old k) ≡ true → is_some (get nat_eq slots.new k) ≡ true }
    ensures placed { OnOk result (is_some (get nat_eq slots.new row) ≡ true) }
    ensures err { OnErr result ((k : ℕ) → value_of (get nat_eq slots.new k) ≡ value_of (get nat_eq slots.old k)) }
{
    match slots.insert(row, value)? {
        Some(before) => Ok(before),
        None => Ok(None),
    }
}

/// Sets the value of a row that has a place.
pub(crate) fn set(slots: &mut Slots, row: u32, value: Option<i64>)
    requires { is_some (get nat_eq slots.old row) ≡ true }
    ensures value { (k : ℕ) → value_of (get nat_eq slots.new k) ≡ cond (k == row) value (value_of (get nat_eq slots.old k)) }
    ensures stays { (k : ℕ) → is_some (get nat_eq slots.old k) ≡ true → is_some (get nat_eq slots.new k) ≡ true }
{
    if let Some(slot) = slots.get_mut(&row) {
        *slot = value;
    }
}
