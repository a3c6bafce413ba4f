// Methods that lead to themselves.
ghost use Rattle.std.specs.Prelude.{◌≡◌, ◌<◌, ◌^◌, ◌↔◌, length, IfOk, IsTrue, MatchOption};
ghost use Rattle.stx_scenario.specs.declared.numbers.MethodNo.{MethodNo};
ghost use Rattle.stx_base.specs.Weight.{IsOnCycle};
ghost use Rattle.stx_base.specs.Weight.{HasNoCycle};
ghost use Rattle.stx_graph.specs.inner.Rows.{RowsInRange, next_in};
ghost use Rattle.stx_graph.specs.Ranks.{IsFirst};
ghost use Rattle.stx_graph.specs.inner.Cycles.{AreReached};

use crate::method_set::MethodSet;
use crate::rows::Rows;
use std::alloc::Global;
use stx_scenario::{MethodNo, NoMemory};

/// The first method that leads to itself in one or more steps.
pub(crate) fn first_on_cycle(alloc: Global, rows: &Rows) -> Result<Option<MethodNo>, NoMemory>
    requires few { length rows.now < 2 ^ 32 }
    requires range { RowsInRange (length rows.now) rows.now }
    ensures { IfOk result (λ found. MatchOption found (HasNoCycle (next_in rows.now) (length rows.now)) (λ m. IsFirst (IsOnCycle (next_in rows.now)) m)) }
{
    for number in 0..rows.len() {
        let method = MethodNo(number as u32);
        if reached(alloc, rows, method)?.contains(method) {
            return Ok(Some(method));
        }
    }
    Ok(None)
}

// The methods that are reached from a method in one or more steps.
fn reached(alloc: Global, rows: &Rows, start: MethodNo) -> Result<MethodSet, NoMemory>
    requires start { start.0 < length rows.now }
    requires range { RowsInRange (length rows.now) rows.now }
    ensures reached { IfOk result (λ set. AreReached (next_in rows.now) start set.order.items) }
    ensures bound { IfOk result (λ set. length set.has.items ≡ length rows.now) }
{
    let mut set = MethodSet::new(alloc, rows.len())?;
    set.add_all(rows.items[start.0 as usize].as_slice())?;
    let mut at = 0;
    while at < set.order.len() {
        let method = set.order[at];
        set.add_all(rows.items[method.0 as usize].as_slice())?;
        at += 1;
    }
    Ok(set)
}
