// What the clients call, and whose turn it is.
ghost use Rattle.std.specs.Prelude.{◌≡◌, ◌+◌, ◌*◌, ◌<◌, IfOk, OnOk, map};
ghost use Rattle.std.specs.List.{range_with_len};
ghost use Rattle.stx_load.specs.Draws.{after, draw};
ghost use Rattle.stx_load.specs.Generated as defined;

use crate::draws::Draws;
use crate::methods::PAYMENTS;
use std::alloc::Global;
use stx_scenario::{Calls, List, MethodNo, NoMemory};

/// How many payments each client makes.
const CALLS_EACH: u32 = 8;

/// How many turns the schedule has for each client.
const TURNS_EACH: u32 = 200;

/// The calls of so many clients.
pub(crate) fn calls_of_clients(
    alloc: Global,
    draws: &mut Draws,
    count: u32,
) -> Result<List<Calls>, NoMemory>
    ensures clients { IfOk result (λ clients. clients ≡ map (λ c. defined.calls_from (after draws.old.state (8 * c))) (range_with_len 0 count)) }
    ensures state { OnOk result (draws.new.state ≡ after draws.old.state (8 * count)) }
{
    let mut clients = List::new(alloc);
    for _client in 0..count {
        clients.push(calls_of_client(alloc, draws)?)?;
    }
    Ok(clients)
}

fn calls_of_client(alloc: Global, draws: &mut Draws) -> Result<Calls, NoMemory>
    ensures calls { IfOk result (λ calls. calls ≡ defined.calls_from draws.old.state) }
    ensures state { OnOk result (draws.new.state ≡ after draws.old.state 8) }
{
    let mut calls = List::new(alloc);
    for _call in 0..CALLS_EACH {
        calls.push(MethodNo(draws.draw(PAYMENTS)))?;
    }
    Ok(calls)
}

/// The schedule of so many clients.
pub(crate) fn turns(alloc: Global, draws: &mut Draws, clients: u32) -> Result<List<u32>, NoMemory>
    requires some { 0 < clients }
    requires few { clients < 65 }
    ensures turns { IfOk result (λ turns. turns ≡ map (λ n. draw (after draws.old.state n) clients) (range_with_len 0 (200 * clients))) }
{
    let mut turns = List::new(alloc);
    for _turn in 0..TURNS_EACH * clients {
        turns.push(draws.draw(clients))?;
    }
    Ok(turns)
}
