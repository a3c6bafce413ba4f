// One shared call of a client through its seats.
ghost use Rattle.std.specs.Prelude.{◌≡◌, ◌≢◌, ◌+◌, Some, OnOk};
ghost use Rattle.stx_base.specs.declared.call.Want.{Want as WantData};
ghost use Rattle.stx_model.specs.Meanings.{stop_of};
ghost use Rattle.stx_client.specs.View.{script_of};
ghost use Rattle.stx_shared.specs.Asking.{IsAt, IsSameBackend};
ghost use Rattle.stx_runner.specs.inner.Slots.{IsReady, IsGoing, IsSameClient, count_notes};

use crate::gate::Gate;
use std::alloc::Global;
use std::sync::Wait;
use stx_client::Client;
use stx_scenario::NoMemory;
use stx_shared::{Cells, SharedBackend};

/// Makes the call that a client wants, its `nth`, and feeds it the reply.
pub(crate) fn call_and_hear<R: Wait, G: Gate>(
    rt: &R,
    alloc: Global,
    cells: &Cells,
    gate: &G,
    client: &mut Client<'_>,
    backend: &mut SharedBackend,
    nth: u64,
) -> Result<(), NoMemory>
    requires ready { IsReady client.old backend.old }
    requires cells { IsAt backend.old cells.now }
    requires more { stop_of (script_of client.old) ≢ Some WantData.Done }
    ensures client { IsSameClient client.old client.new }
    ensures backend { IsSameBackend backend.old backend.new }
    ensures going { OnOk result (IsGoing client.new backend.new) }
    ensures one_more { OnOk result (count_notes client.new ≡ count_notes client.old + 1) }
{
    let number = backend.number;
    let call = client.next();
    gate.before(number, nth);
    let asked = backend.ask(rt, alloc, cells, call);
    gate.after(number, nth);
    let reply = asked?;
    client.feed(alloc, reply)
}
