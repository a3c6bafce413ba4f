// A whole run: the cells are made, their seats split off, and all taken in again at the end.
ghost use Rattle.std.specs.Prelude.{◌≡◌, length, IfOk, OnOk};
ghost use Rattle.std.specs.List.{All};
ghost use Rattle.stx_model.specs.Faithful.{Faithful};
ghost use Rattle.stx_model.specs.Playable.{IsPlayable};
ghost use Rattle.stx_runner.specs.Driving.{AreCellsOf, AreFresh};
ghost use Rattle.stx_runner.specs.inner.Seats.{HaveSplit, IsJoinable, HaveJoined};

use crate::driving::drive;
use crate::gate::Gate;
use std::alloc::Global;
use std::sync::Wait;
use std::thread::Threads;
use stx_base::Outcome;
use stx_client::Setup;
use stx_pool::PoolCore;
use stx_scenario::{List, NoMemory};
use stx_shared::{Cells, PoolValue, SharedBackend, StoreValue};
use stx_store::StoreCore;
use stx_turn::{Seat, TurnCell};

/// The first seats of the two cells, which split the others off and take them in.
#[derive(Drop)]
pub(crate) struct FirstSeats {
    pub(crate) pool: Seat<PoolValue>,
    pub(crate) store: Seat<StoreValue>,
}

/// Runs all clients of a scenario side by side, each on a thread of its own, over one pool and one store.
pub fn run<R: Threads + Wait + Sync, G: Gate>(
    rt: &R,
    alloc: Global,
    setup: &Setup,
    gate: &G,
) -> Result<Outcome, NoMemory>
    requires { IsPlayable setup.now.scenario }
    ensures { IfOk result (λ outcome. Faithful setup.now.scenario outcome) }
{
    let (cells, mut first) = cells_of(alloc, setup)?;
    let backends = split_all(alloc, setup, &cells, &mut first)?;
    let driven = drive(rt, alloc, setup, gate, &cells, backends)?;
    join_all(&cells, &mut first, driven.backends);
    let Cells { pool, store } = cells;
    Ok(Outcome {
        lines: driven.lines,
        pool: pool.close(first.pool).into_core().into_entries(),
        store: store.close(first.store).into_core().into_entries(),
    })
}

// The cells of a scenario's pool and store, with their first seats.
fn cells_of(alloc: Global, setup: &Setup) -> Result<(Cells, FirstSeats), NoMemory>
    requires { IsPlayable setup.now.scenario }
    ensures cells { IfOk result (λ made. AreCellsOf setup.now.scenario made.0) }
    ensures first { IfOk result (λ made. HaveSplit made.0 0 made.1) }
{
    let pool = PoolCore::new(alloc, setup.scenario.settings.pool)?;
    let (pool, pool_seat) = TurnCell::new(alloc, PoolValue::new(pool))?;
    let store = StoreCore::new(alloc, &setup.scenario.values)?;
    let (store, store_seat) = TurnCell::new(alloc, StoreValue::new(store))?;
    Ok((
        Cells { pool, store },
        FirstSeats {
            pool: pool_seat,
            store: store_seat,
        },
    ))
}

// A backend for each client: client c has the seats c + 1.
fn split_all(
    alloc: Global,
    setup: &Setup,
    cells: &Cells,
    first: &mut FirstSeats,
) -> Result<List<SharedBackend>, NoMemory>
    requires playable { IsPlayable setup.now.scenario }
    requires first { HaveSplit cells.now 0 first.old }
    ensures first { OnOk result (HaveSplit cells.now (length setup.now.scenario.clients) first.new) }
    ensures fresh { IfOk result (λ backends. AreFresh setup.now.scenario cells.now backends) }
{
    let mut backends = List::new(alloc);
    for number in 0..setup.scenario.clients.len() as u32 {
        let pool = cells.pool.split(&mut first.pool, number + 1);
        let store = cells.store.split(&mut first.store, number + 1);
        backends.push(SharedBackend {
            number,
            pool,
            store,
        })?;
    }
    Ok(backends)
}

// Takes the seats of all clients in.
fn join_all(cells: &Cells, first: &mut FirstSeats, backends: List<SharedBackend>)
    requires first { HaveSplit cells.now first.old.pool.made first.old }
    requires each { All (IsJoinable cells.now) backends }
    ensures { HaveJoined first.old backends first.new }
{
    for backend in backends.into_vec() {
        cells.pool.join(&mut first.pool, backend.pool);
        cells.store.join(&mut first.store, backend.store);
    }
}
