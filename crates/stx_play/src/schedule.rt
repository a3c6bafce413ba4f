// Plays a whole schedule.
ghost use Rattle.std.specs.Prelude.{◌≡◌, ◌<◌, length, IfOk};
ghost use Rattle.std.specs.List.{All};
ghost use Rattle.stx_model.specs.Faithful.{Faithful};
ghost use Rattle.stx_model.specs.Playable.{IsPlayable};
ghost use Rattle.stx_model.specs.Played.{played};

use crate::Played;
use std::alloc::Global;
use stx_base::Outcome;
use stx_client::Setup;
use stx_scenario::NoMemory;

/// Plays all clients of a scenario: a turn of a client for each entry of the schedule, and then each client to its end,
/// in the order of their numbers. An entry of a client that is done is passed over.
pub fn play(alloc: Global, setup: &Setup, schedule: &[u32]) -> Result<Outcome, NoMemory>
    requires playable { IsPlayable setup.now.scenario }
    requires schedule { All (λ client. client < length setup.now.scenario.clients) schedule.now }
    ensures played { IfOk result (λ outcome. outcome ≡ played setup.now.scenario schedule.now) }
    ensures faithful { IfOk result (λ outcome. Faithful setup.now.scenario outcome) }
{
    let mut play = Played::new(alloc, setup)?;
    for client in schedule {
        play.advance(alloc, *client)?;
    }
    for client in 0..setup.scenario.clients.len() {
        play.run_out(alloc, client as u32)?;
    }
    play.finish(alloc)
}
