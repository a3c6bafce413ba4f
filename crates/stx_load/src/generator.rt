// The whole scenario.
ghost use Rattle.std.specs.Prelude.{◌≡◌, ◌≤◌, ◌*◌, IfOk};
ghost use Rattle.stx_base.specs.Weight.{weight};
ghost use Rattle.stx_judge.specs.Judge.{IsValid};
ghost use Rattle.stx_load.specs.Generated.{generated, settings_for};

use crate::clients::{calls_of_clients, turns};
use crate::draws::Draws;
use crate::methods::{beans, listeners, methods};
use crate::rows::{first_values, row_names};
use std::alloc::Global;
use stx_scenario::{
    List, MOST_CONNECTIONS, Name, NoMemory, Scenario, Settings, SyncMode, built_in_classes,
};

/// The scenario for load that a seed gives for so many clients. It is valid.
#[tactic(auto, unfolding(crate::specs::Generated::generated))]
pub fn generated(alloc: Global, seed: u64, clients: u32) -> Result<Scenario, NoMemory>
    requires some { 1 ≤ clients }
    requires few { clients ≤ 64 }
    ensures scenario { IfOk result (λ scenario. scenario ≡ generated seed clients) }
    ensures valid { IfOk result (λ scenario. IsValid scenario) }
    ensures weight { IfOk result (λ scenario. weight scenario ≡ 1152 * clients) }
{
    let mut draws = Draws { state: seed };
    let methods = methods(alloc, &mut draws)?;
    let calls = calls_of_clients(alloc, &mut draws, clients)?;
    let schedule = turns(alloc, &mut draws, clients)?;
    let mut events = List::new(alloc);
    events.push(Name::new(alloc, "paid")?)?;
    Ok(Scenario {
        settings: settings(clients),
        events,
        schedule,
        row_names: row_names(alloc)?,
        values: first_values(alloc)?,
        classes: built_in_classes(alloc)?,
        beans: beans(alloc)?,
        methods,
        syncs: List::new(alloc),
        listeners: listeners(alloc)?,
        clients: calls,
    })
}

/// A connection for each client and one more, where the pool may have so many.
fn settings(clients: u32) -> Settings
    requires { clients ≤ 64 }
    ensures { result ≡ settings_for clients }
{
    Settings {
        pool: MOST_CONNECTIONS.min(clients + 1),
        mode: SyncMode::Always,
        nested: true,
    }
}
