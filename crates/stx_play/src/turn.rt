// One shared call of a client.
ghost use Rattle.std.specs.Prelude.{◌≡◌, ◌≢◌, Some, OnOk};
ghost use Rattle.stx_model.specs.Played.{want_so_far};
ghost use Rattle.stx_base.specs.declared.call.Want.{Want as WantData};
ghost use Rattle.stx_play.specs.inner.Turning.{IsReady, HasTurned, turns_of};

use crate::asking::ask;
use std::alloc::Global;
use stx_client::Client;
use stx_pool::PoolCore;
use stx_scenario::{NoMemory, Scenario};
use stx_store::StoreCore;

/// Makes the call that a client wants, and feeds it the reply.
pub(crate) fn take_turn(
    alloc: Global,
    scenario: &Scenario,
    machine: &mut Client<'_>,
    number: u32,
    pool: &mut PoolCore,
    store: &mut StoreCore,
) -> Result<(), NoMemory>
    requires ready { IsReady scenario.now machine.old number pool.old store.old }
    requires more { want_so_far scenario.now (turns_of pool.old store.old) number ≢ Some WantData.Done }
    ensures { OnOk result (HasTurned scenario.now number pool.old store.old pool.new store.new machine.new) }
{
    let call = machine.next();
    let reply = ask(alloc, pool, store, number, call)?;
    machine.feed(alloc, reply)
}
