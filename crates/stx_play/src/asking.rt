// Hands a client's call to the pool or to the store, and the answer back.
ghost use Rattle.std.specs.Prelude.{◌<◌, IfOk};
ghost use Rattle.stx_base.specs.Limits.{most_clients};
ghost use Rattle.stx_play.specs.inner.Turning.{IsCallProper, IsCallAnswered};

use std::alloc::Global;
use stx_base::{Call, Reply};
use stx_pool::PoolCore;
use stx_scenario::NoMemory;
use stx_store::StoreCore;

/// A call of a client on the pool or the store. What it gives back or ends is spent.
pub(crate) fn ask(
    alloc: Global,
    pool: &mut PoolCore,
    store: &mut StoreCore,
    client: u32,
    call: Call,
) -> Result<Reply, NoMemory>
    requires client { client < most_clients }
    requires proper { IsCallProper pool.old store.old client call }
    ensures { IfOk result (λ reply. IsCallAnswered pool.old store.old pool.new store.new client call reply) }
{
    match call {
        Call::Pool(call) => Ok(Reply::Pool(pool.answer(alloc, client, call)?)),
        Call::Store(call) => Ok(Reply::Store(store.answer(alloc, client, call)?)),
    }
}
