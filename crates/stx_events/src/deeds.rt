// What a publication does with each listener of its event.
ghost use Rattle.std.specs.Prelude.{◌≡◌, ◌<◌, ◌^◌, ◌==◌, IfOk, length, map};
ghost use Rattle.std.specs.List.{filter, enumerate_from};
ghost use Rattle.stx_model.specs.Listeners.{dealt_with, deed as model_deed, deeds};
ghost use Rattle.stx_events.specs.Deeds.{deed_of};
ghost use Rattle.stx_events.specs.inner.Heard.{listener_of};

use std::alloc::Global;
use stx_scenario::{EventNo, List, Listener, ListenerNo, NoMemory, Scenario};

/// What is done with a listener.
#[derive(Clone, Copy, Debug, PartialEq, Eq)]
pub enum Deed {
    /// It becomes a registration, with its own order value.
    Register(ListenerNo),
    /// Its body runs at once.
    RunNow(ListenerNo),
    /// Nothing: it has no fallback.
    Skip(ListenerNo),
}

/// What is done with the listeners of an event: by ascending order value, ties in the order of the file.
pub fn on_publish(
    alloc: Global,
    scenario: &Scenario,
    event: EventNo,
    syncs_active: bool,
    tx_live: bool,
) -> Result<List<Deed>, NoMemory>
    requires { length scenario.now.listeners < 2 ^ 32 }
    ensures { IfOk result (λ found. map deed_of found ≡ deeds scenario.now event syncs_active tx_live) }
{
    let heard = in_order(alloc, scenario, event)?;
    deeds_with(alloc, &heard, syncs_active && tx_live)
}

// The listeners of an event with their numbers, in the order in which they are dealt with.
fn in_order<'a>(
    alloc: Global,
    scenario: &'a Scenario,
    event: EventNo,
) -> Result<Vec<(u32, &'a Listener)>, NoMemory>
    requires { length scenario.now.listeners < 2 ^ 32 }
    ensures { IfOk result (λ heard. map listener_of heard.items ≡ dealt_with scenario.now event) }
{
    let mut heard = listening(alloc, scenario.listeners.as_slice(), event)?;
    heard.sort_by_key(|(_, listener)| listener.order)?;
    Ok(heard)
}

// The listeners of an event with their numbers, in the order of the file.
fn listening<'a>(
    alloc: Global,
    listeners: &'a [Listener],
    event: EventNo,
) -> Result<Vec<(u32, &'a Listener)>, NoMemory>
    requires { length listeners.now < 2 ^ 32 }
    ensures { IfOk result (λ heard. map listener_of heard.items ≡
        filter (λ l. l.1.event.0 == event.0) (enumerate_from 0 listeners.now)) }
{
    let mut heard = Vec::new(alloc);
    for (number, listener) in listeners.iter().enumerate() {
        if listener.event == event {
            heard.push((number as u32, listener))?;
        }
    }
    Ok(heard)
}

fn deeds_with(
    alloc: Global,
    heard: &[(u32, &Listener)],
    registers: bool,
) -> Result<List<Deed>, NoMemory>
    ensures { IfOk result (λ found. map deed_of found ≡ map (model_deed registers) (map listener_of heard.now)) }
{
    let mut found = List::new(alloc);
    for (number, listener) in heard {
        found.push(deed_for(registers, ListenerNo(*number), listener))?;
    }
    Ok(found)
}

fn deed_for(registers: bool, number: ListenerNo, listener: &Listener) -> Deed
    ensures { deed_of result ≡ model_deed registers (number.0, listener.now) }
{
    if registers {
        Deed::Register(number)
    } else if listener.fallback {
        Deed::RunNow(number)
    } else {
        Deed::Skip(number)
    }
}
