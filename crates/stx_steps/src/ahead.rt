// What a small step tells and deals with, made before it changes anything.
ghost use Rattle.std.specs.Prelude.{◌≡◌, ◌≤◌, ◌<◌, ◌+◌, ◌^◌, length, map, IfOk, OnOk};
ghost use Rattle.std.specs.Option.{option_map};
ghost use Rattle.stx_model.specs.Playable.{IsPlayable};
ghost use Rattle.stx_events.specs.Deeds.{deed_of};
ghost use Rattle.stx_context.specs.Carrying.{context_of};
ghost use Rattle.stx_sync.specs.Registries.{registration};
ghost use Rattle.stx_machine.specs.Machine.{HasRegistryRoom, suspends as suspends_in, tells_all, told_by};
ghost use Rattle.stx_steps.specs.Steps.{CanPrepare, deed_by};

use crate::publications::next_deed;
use std::alloc::Global;
use stx_base::Opening;
use stx_events::Deed;
use stx_machine::{Machine, Setup, Stage, attribute_of};
use stx_manager::opening;
use stx_scenario::{List, NoMemory};
use stx_sync::Registered;

/// The most registrations that are told in one go.
const MOST_TOLD: usize = u32::MAX as usize;

/// What a small step tells, by order, and what it does with a listener.
#[derive(Drop)]
pub(crate) struct Ahead {
    pub(crate) told: List<Registered>,
    pub(crate) deed: Option<Deed>,
}

/// Makes room for a small step, and gives what it tells and deals with.
pub(crate) fn prepare(
    machine: &mut Machine,
    alloc: Global,
    setup: &Setup,
) -> Result<Ahead, NoMemory>
    requires playable { IsPlayable setup.now.scenario }
    requires stage { CanPrepare setup.now.scenario machine.old.stage }
    ensures told { IfOk result (λ ahead. map registration ahead.told ≡ told_by setup.now.scenario machine.old.stage (context_of machine.old.context)) }
    ensures deed { IfOk result (λ ahead. option_map deed_of ahead.deed ≡ deed_by setup.now.scenario machine.old.stage) }
    ensures few { IfOk result (λ ahead. length ahead.told < 2 ^ 32) }
    ensures lines { IfOk result (λ ahead. length ahead.told + 4 ≤ machine.new.lines.spare) }
    ensures frames { OnOk result (1 ≤ machine.new.frames.spare) }
    ensures registry { OnOk result (HasRegistryRoom machine.new.context) }
    ensures said { machine.new.lines.items ≡ machine.old.lines.items }
    ensures calls { machine.new.frames.items ≡ machine.old.frames.items }
    ensures context { context_of machine.new.context ≡ context_of machine.old.context }
    ensures tx { machine.new.context.tx ≡ machine.old.context.tx }
    ensures rest { machine.new ≡ record machine.old { lines = machine.new.lines; frames = machine.new.frames; context = machine.new.context } }
{
    let told = told_now(machine, alloc, setup)?;
    let deed = deed_now(machine, alloc, setup)?;
    machine.reserve_lines(alloc, told.len())?;
    reserve_registration(machine, alloc)?;
    Ok(Ahead { told, deed })
}

// The registrations that the next small step tells, by order.
fn told_now(machine: &Machine, alloc: Global, setup: &Setup) -> Result<List<Registered>, NoMemory>
    requires stage { CanPrepare setup.now.scenario machine.now.stage }
    ensures told { IfOk result (λ told. map registration told ≡ told_by setup.now.scenario machine.now.stage (context_of machine.now.context)) }
    ensures few { IfOk result (λ told. length told < 2 ^ 32) }
{
    match machine.context.active() {
        Some(registry) if tells(machine, setup) => {
            let told = registry.snapshot(alloc)?;
            if told.len() > MOST_TOLD {
                return Err(NoMemory::uncountable(told.len(), 0));
            }
            Ok(told)
        }
        _ => Ok(List::new(alloc)),
    }
}

// What the next small step does with a listener of a publication.
fn deed_now(machine: &Machine, alloc: Global, setup: &Setup) -> Result<Option<Deed>, NoMemory>
    requires playable { IsPlayable setup.now.scenario }
    ensures { IfOk result (λ deed. option_map deed_of deed ≡ deed_by setup.now.scenario machine.now.stage) }
{
    match machine.stage {
        Stage::Dealing(publication) => next_deed(alloc, setup, publication),
        _ => Ok(None),
    }
}

// Whether the next small step tells the registrations that are active.
fn tells(machine: &Machine, setup: &Setup) -> bool
    requires stage { CanPrepare setup.now.scenario machine.now.stage }
    ensures { result ≡ tells_all setup.now.scenario machine.now.stage (context_of machine.now.context) }
{
    match machine.stage {
        Stage::Rounding | Stage::Resuming => true,
        Stage::Opening { method, .. } => suspends(opening(
            &setup.scenario.settings,
            attribute_of(setup, method),
            &machine.context,
        )),
        _ => false,
    }
}

// Makes room for one registration more, where synchronisation is active.
fn reserve_registration(machine: &mut Machine, alloc: Global) -> Result<(), NoMemory>
    ensures context { context_of machine.new.context ≡ context_of machine.old.context }
    ensures tx { machine.new.context.tx ≡ machine.old.context.tx }
    ensures room { OnOk result (HasRegistryRoom machine.new.context) }
    ensures rest { machine.new ≡ record machine.old { context = machine.new.context } }
{
    match machine.context.registry() {
        Some(registry) => registry.reserve(alloc),
        None => Ok(()),
    }
}

// Whether an opening suspends what is carried.
fn suspends(opening: Opening) -> bool
    ensures { result ≡ suspends_in opening }
{
    matches!(
        opening,
        Opening::Fresh { suspends: true, .. } | Opening::Empty { suspends: true, .. }
    )
}
