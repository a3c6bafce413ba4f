// The listeners of an event where there is memory enough.
ghost use Rattle.std.specs.Prelude.{◌≡◌};

use super::*;
use std::alloc::Global;
use std::test::Fail;
use stx_scenario::{
    EventNo, List, Listener, ListenerNo, Name, NoMemory, Phase, Scenario, Settings, SyncMode,
};

fn listener(alloc: Global, order: i32, fallback: bool) -> Result<Listener, NoMemory> {
    Ok(Listener {
        name: Name::new(alloc, "l")?,
        event: EventNo(0),
        phase: Phase::AfterCommit,
        order,
        fallback,
        body: List::new(alloc),
    })
}

fn scenario_of(alloc: Global, listeners: List<Listener>) -> Scenario
    ensures { result.listeners ≡ listeners }
{
    Scenario {
        settings: Settings {
            pool: 1,
            mode: SyncMode::Always,
            nested: true,
        },
        events: List::new(alloc),
        schedule: List::new(alloc),
        row_names: List::new(alloc),
        values: List::new(alloc),
        classes: List::new(alloc),
        beans: List::new(alloc),
        methods: List::new(alloc),
        syncs: List::new(alloc),
        listeners,
        clients: List::new(alloc),
    }
}

/// What is done with a listener without fallback, and with one of a lower order value that has it, outside a transaction.
fn deeds_outside(alloc: Global) -> Result<List<Deed>, NoMemory> {
    let mut listeners = List::new(alloc);
    listeners.push(listener(alloc, 2, false)?)?;
    listeners.push(listener(alloc, 1, true)?)?;
    let scenario = scenario_of(alloc, listeners);
    on_publish(alloc, &scenario, EventNo(0), true, false)
}

#[test]
fn the_lower_order_comes_first(rt: HostRuntime) -> Result<(), Fail> {
    let deeds = deeds_outside(rt.alloc())?;
    let run = Deed::RunNow(ListenerNo(1));
    let skipped = Deed::Skip(ListenerNo(0));
    assert_eq!(rt; deeds.as_slice(), [run, skipped].as_slice());
    Ok(())
}
