// The places of each client's entries in a history, handed out in one walk over the history.
ghost use Rattle.std.specs.Prelude.{◌≡◌, ℕ, ◌<◌, IfOk, OnOk, map, replicate, []};
ghost use Rattle.stx_report.specs.inner.Places.{AreHandedOut, placed};

use std::alloc::Global;
use stx_base::{PoolEntry, StoreEntry};
use stx_scenario::{List, NoMemory};

/// An entry of a history, which a client made.
pub trait Made {
    ghost maker: { Self → ℕ };

    fn client(&self) -> u32
        ensures { result ≡ maker self.now };
}

impl Made for PoolEntry {
    ghost maker = { λ entry. entry.client };

    fn client(&self) -> u32 {
        self.client
    }
}

impl Made for StoreEntry {
    ghost maker = { λ entry. entry.client };

    fn client(&self) -> u32 {
        self.client
    }
}

/// The places, from 1, of the entries of each client in a history.
pub fn entry_places<E: Made>(
    alloc: Global,
    clients: usize,
    history: &[E],
) -> Result<Vec<List<u64>>, NoMemory>
    ensures { IfOk result (λ places. AreHandedOut (map E.maker history.now) clients places.items) }
{
    let makers: Vec<u32> = history.iter().map(|entry| entry.client()).collect(alloc)?;
    handed_out(alloc, clients, makers.as_slice())
}

/// The places, from 1, at which each client below a count is the maker.
fn handed_out(alloc: Global, clients: usize, makers: &[u32]) -> Result<Vec<List<u64>>, NoMemory>
    ensures { IfOk result (λ places. AreHandedOut makers.now clients places.items) }
{
    let mut places = no_places(alloc, clients)?;
    for (index, maker) in makers.iter().enumerate() {
        hand_out(&mut places, *maker as usize, index as u64 + 1)?;
    }
    Ok(places)
}

/// No places for so many clients.
fn no_places(alloc: Global, clients: usize) -> Result<Vec<List<u64>>, NoMemory>
    ensures { IfOk result (λ places. places.items ≡ replicate clients []) }
{
    let mut places = Vec::new(alloc);
    for _client in 0..clients {
        places.push(List::new(alloc))?;
    }
    Ok(places)
}

/// Puts a place at the end of a client's, where there is the client.
fn hand_out(places: &mut [List<u64>], client: usize, place: u64) -> Result<(), NoMemory>
    ensures { OnOk result (places.new ≡ placed places.old client place) }
{
    if client < places.len() {
        places[client].push(place)?;
    }
    Ok(())
}
