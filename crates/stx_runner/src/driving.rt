// All clients of a scenario, each on a thread of its own, over two cells.
ghost use Rattle.std.specs.Prelude.{◌≡◌, ◌<◌, ℕ, length, slice_index_or, IfOk, All};
ghost use Rattle.stx_model.specs.Playable.{IsPlayable};
ghost use Rattle.stx_shared.specs.Asking.{IsAt};
ghost use Rattle.stx_runner.specs.Driving.{AreCellsOf, AreFresh, IsDriven};
ghost use Rattle.stx_runner.specs.inner.Slots.{SlotView, AreSlots, Keeps};
ghost use denote.Param.Send.{IsSync};

use crate::gate::Gate;
use crate::slot::Slot;
use std::alloc::Global;
use std::sync::Wait;
use std::thread;
use std::thread::Threads;
use stx_base::ClientLines;
use stx_client::Setup;
use stx_scenario::{List, NoMemory};
use stx_shared::{Cells, SharedBackend};

/// What all clients leave: the lines of each, and what each made its calls through.
#[derive(Drop)]
pub struct Driven {
    pub lines: List<ClientLines>,
    pub backends: List<SharedBackend>,
}

/// Runs all clients of a scenario on two cells, each client on a thread of its own, and gives their backends back in
/// order. Where a thread can't be made its client runs all the same, before or after others. For want of memory in one
/// client the others go on to their ends, and the backends are then given up.
pub fn drive<R: Threads + Wait + Sync, G: Gate>(
    rt: &R,
    alloc: Global,
    setup: &Setup,
    gate: &G,
    cells: &Cells,
    backends: List<SharedBackend>,
) -> Result<Driven, NoMemory>
    requires playable { IsPlayable setup.now.scenario }
    requires cells { AreCellsOf setup.now.scenario cells.now }
    requires fresh { AreFresh setup.now.scenario cells.now backends }
    ensures { IfOk result (λ driven. IsDriven setup.now.scenario cells.now driven.lines driven.backends) }
{
    let mut slots = slots_of(alloc, setup, cells, backends)?;
    run_at_once(rt, alloc, cells, gate, slots.as_mut_slice());
    end_all(rt, alloc, setup, cells, gate, slots)
}

// The clients of a scenario, each with its backend.
fn slots_of<'a>(
    alloc: Global,
    setup: &'a Setup,
    cells: &Cells,
    backends: List<SharedBackend>,
) -> Result<Vec<Slot<'a>>, NoMemory>
    requires playable { IsPlayable setup.now.scenario }
    requires cells { AreCellsOf setup.now.scenario cells.now }
    requires fresh { AreFresh setup.now.scenario cells.now backends }
    ensures { IfOk result (λ slots. AreSlots setup.now.scenario cells.now slots.items) }
{
    let mut slots = Vec::new(alloc);
    for backend in backends.into_vec() {
        slots.push(Slot::new(alloc, setup, backend)?)?;
    }
    Ok(slots)
}

// Lets each client make all of its calls, each on a thread of its own.
fn run_at_once<R: Threads + Wait + Sync, G: Gate>(
    rt: &R,
    alloc: Global,
    cells: &Cells,
    gate: &G,
    slots: &mut [Slot<'_>],
)
    requires { All (λ slot. IsAt slot.backend cells.now) slots.old }
    ensures { (c : ℕ) (d : SlotView) → c < length slots.old → Keeps (slice_index_or slots.old c d) (slice_index_or slots.new c d) }
{
    let threads = slots.len().max(1);
    thread::for_each_mut(
        rt,
        slots,
        threads,
        &|_, slot: &mut Slot|
            requires { IsSync R.row × IsSync G.row × IsAt slot.now.backend cells.now }
            ensures { Keeps slot.entry.now slot.exit.now }
        { slot.finish(rt, alloc, cells, gate) },
    );
}

// The lines and the backends of all clients. What a thread has left of a client's calls is made here.
fn end_all<R: Wait, G: Gate>(
    rt: &R,
    alloc: Global,
    setup: &Setup,
    cells: &Cells,
    gate: &G,
    slots: Vec<Slot<'_>>,
) -> Result<Driven, NoMemory>
    requires { AreSlots setup.now.scenario cells.now slots.items }
    ensures { IfOk result (λ driven. IsDriven setup.now.scenario cells.now driven.lines driven.backends) }
{
    let mut lines = List::new(alloc);
    let mut backends = List::new(alloc);
    for mut slot in slots {
        slot.finish(rt, alloc, cells, gate);
        let (said, backend) = slot.end()?;
        lines.push(said)?;
        backends.push(backend)?;
    }
    Ok(Driven { lines, backends })
}
