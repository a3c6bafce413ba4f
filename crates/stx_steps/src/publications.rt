// Publications: what is done with the listeners of an event, one after the other.
ghost use Rattle.std.specs.Prelude.{◌≡◌, ◌≤◌, ◌+◌, ◌&&◌, Bool, IfOk, drop, map, None, Some, false, slice_get};
ghost use Rattle.std.specs.Option.{option_map};
ghost use Rattle.stx_scenario.specs.declared.scenario.Scenario.{Scenario as ScenarioData};
ghost use Rattle.stx_model.specs.Below.{ListenerBelow, listener_body};
ghost use Rattle.stx_model.specs.Contexts.{is_active, is_live};
ghost use Rattle.stx_model.specs.Listeners.{deeds};
ghost use Rattle.stx_model.specs.Meanings.{Over};
ghost use Rattle.stx_model.specs.Playable.{IsPlayable};
ghost use Rattle.stx_model.specs.Script.{deals, publishes};
ghost use Rattle.stx_model.specs.Statements.{order_of_listener};
ghost use Rattle.stx_context.specs.Carrying.{context_of};
ghost use Rattle.stx_events.specs.Deeds.{deed_of};
ghost use Rattle.stx_machine.specs.Machine.{Comes, HasRegistryRoom, IsClass, IsLonger, Moves, calls_at, event_of as event_in, listener_of as listener_in, dealt, deeds_after, later_deeds, later_than, now_after, publication_of, registers_one, runs_one, stack};
ghost use Rattle.stx_steps.specs.Steps.{first_deed, IsNext};
ghost use Rattle.stx_machine.specs.Sound.{DeedsBelow, IsBody, IsSound, IsWithin, Leaves, held, no_tokens, rank_at};

use crate::rounds::make_in_callback;
use std::alloc::Global;
use stx_base::{Label, Line};
use stx_events::{Deed, on_publish};
use stx_frames::Frame;
use stx_machine::{Machine, Publication, Setup, Stage};
use stx_scenario::{ClassNo, EventNo, ILLEGAL_STATE_EXCEPTION, List, ListenerNo, NoMemory, Stmt};
use stx_sync::Registered;

/// What is done next with a listener of a publication, if one is left.
pub(crate) fn next_deed(
    alloc: Global,
    setup: &Setup,
    publication: Publication,
) -> Result<Option<Deed>, NoMemory>
    requires playable { IsPlayable setup.now.scenario }
    ensures { IfOk result (λ deed. option_map deed_of deed ≡ first_deed (later_deeds setup.now.scenario publication)) }
{
    let registers = publication.registers;
    let deeds = on_publish(
        alloc,
        &setup.scenario,
        publication.event,
        registers,
        registers,
    )?;
    Ok(next_of(&deeds, publication.after))
}

// The next of these deeds after that with this listener, or the first.
fn next_of(deeds: &List<Deed>, after: Option<ListenerNo>) -> Option<Deed>
    ensures { option_map deed_of result ≡ first_deed (deeds_after after (map deed_of deeds.now)) }
{
    match after {
        Some(listener) => deed_at(deeds, place_after(deeds.as_slice(), listener)),
        None => deed_at(deeds, 0),
    }
}

// The deed at a place, if there is one.
fn deed_at(deeds: &List<Deed>, place: usize) -> Option<Deed>
    ensures { option_map deed_of result ≡ first_deed (drop place (map deed_of deeds.now)) }
{
    match deeds.get(place) {
        Some(deed) => Some(*deed),
        None => None,
    }
}

// The listener that a deed is done with.
fn listener_of(deed: Deed) -> ListenerNo
    ensures { result ≡ listener_in (deed_of deed) }
{
    match deed {
        Deed::Register(listener) | Deed::RunNow(listener) | Deed::Skip(listener) => listener,
    }
}

// The place after the deed with this listener, or after the last.
fn place_after(deeds: &[Deed], listener: ListenerNo) -> usize
    ensures { later_than listener (map deed_of deeds.now) ≡ drop result (map deed_of deeds.now) }
{
    for (place, deed) in deeds.iter().enumerate() {
        if listener_of(*deed) == listener {
            return place + 1;
        }
    }
    deeds.len()
}

// The order value of a listener.
fn order_of(setup: &Setup, listener: ListenerNo) -> i32
    ensures { result ≡ order_of_listener (slice_get setup.now.scenario.listeners listener.0) }
{
    match setup.scenario.listeners.get(listener.0 as usize) {
        Some(listener) => listener.order,
        None => 0,
    }
}

// The next statement of a listener's body, where nothing was thrown and there is one more.
fn statement_of(
    setup: &Setup,
    listener: ListenerNo,
    place: u32,
    thrown: Option<ClassNo>,
) -> Option<Stmt>
    ensures { IsNext (listener_body (slice_get setup.now.scenario.listeners listener.0)) place thrown result }
{
    if thrown.is_some() {
        return None;
    }
    match setup.scenario.listeners.get(listener.0 as usize) {
        Some(listener) => match listener.body.get(place as usize) {
            Some(statement) => Some(*statement),
            None => None,
        },
        None => None,
    }
}

// The event of a listener.
fn event_of(setup: &Setup, listener: ListenerNo) -> EventNo
    ensures { result ≡ event_in setup.now.scenario listener }
{
    match setup.scenario.listeners.get(listener.0 as usize) {
        Some(listener) => listener.event,
        None => EventNo(0),
    }
}

/// Publishes an event: its listeners are to be dealt with.
pub(crate) fn publish(machine: &mut Machine, event: EventNo)
    requires lines { 1 ≤ machine.old.lines.spare }
    ensures goes { (S : ScenarioData) → Comes S machine.old (publishes S (calls_at S (stack machine.old.frames)) event) machine.new }
    ensures sound { (S : ScenarioData) → IsBody (stack machine.old.frames) → ((active live : Bool) → DeedsBelow S (rank_at S machine.old) (deeds S event active live)) → Leaves S machine.old no_tokens machine.new }
    ensures longer { IsLonger machine.old machine.new }
{
    let registers = registers(machine);
    machine.lines.push(Line::Publish(event));
    machine.stage = Stage::Dealing(Publication {
        event,
        after: None,
        registers,
    });
}

// Whether the listeners of a publication become registrations: synchronisation is active, and a transaction is live.
fn registers(machine: &Machine) -> bool
    ensures { result ≡ (is_active (context_of machine.now.context) && is_live (context_of machine.now.context)) }
{
    machine.context.active().is_some() && machine.context.bound().is_some()
}

/// Deals with the next listener of a publication, if one is left: it is registered, it runs at once, or it is skipped.
pub(crate) fn deal(
    machine: &mut Machine,
    setup: &Setup,
    publication: Publication,
    deed: Option<Deed>,
)
    requires playable { IsPlayable setup.now.scenario }
    requires deed { option_map deed_of deed ≡ first_deed (later_deeds setup.now.scenario publication) }
    requires below { DeedsBelow setup.now.scenario (rank_at setup.now.scenario machine.old) (later_deeds setup.now.scenario publication) }
    requires body { IsBody (stack machine.old.frames) }
    requires within { IsWithin setup.now.scenario machine.old no_tokens }
    requires lines { 1 ≤ machine.old.lines.spare }
    requires frames { 1 ≤ machine.old.frames.spare }
    requires registry { HasRegistryRoom machine.old.context }
    ensures goes { Comes setup.now.scenario machine.old (deals setup.now.scenario (calls_at setup.now.scenario (stack machine.old.frames)) (later_deeds setup.now.scenario publication)) machine.new }
    ensures sound { IsSound setup.now.scenario machine.new (held machine.new.stage) }
    ensures moves { Moves 1 machine.old machine.new }
{
    match deed {
        Some(deed) => match deed {
            Deed::Register(listener) => register_listener(machine, setup, publication, listener),
            Deed::RunNow(listener) => run_now(machine, listener),
            Deed::Skip(listener) => {
                machine.lines.push(Line::Skip(listener));
                machine.stage = Stage::Dealing(Publication {
                    after: Some(listener),
                    ..publication
                });
            }
        },
        None => machine.stage = Stage::Over(None),
    }
}

// Registers a listener of a publication.
fn register_listener(
    machine: &mut Machine,
    setup: &Setup,
    publication: Publication,
    listener: ListenerNo,
)
    requires playable { IsPlayable setup.now.scenario }
    requires lines { 1 ≤ machine.old.lines.spare }
    requires registry { HasRegistryRoom machine.old.context }
    ensures goes { Comes setup.now.scenario machine.old (registers_one setup.now.scenario (calls_at setup.now.scenario (stack machine.old.frames)) publication listener) machine.new }
    ensures sound { IsBody (stack machine.old.frames) → ListenerBelow setup.now.scenario (rank_at setup.now.scenario machine.old) listener → DeedsBelow setup.now.scenario (rank_at setup.now.scenario machine.old) (later_deeds setup.now.scenario (dealt publication listener)) → Leaves setup.now.scenario machine.old no_tokens machine.new }
    ensures longer { IsLonger machine.old machine.new }
{
    let label = Label::Listener(listener);
    let order = order_of(setup, listener);
    if machine.add_registration(Registered { label, order }) {
        machine.stage = Stage::Dealing(Publication {
            after: Some(listener),
            ..publication
        });
    } else {
        machine.throw(ILLEGAL_STATE_EXCEPTION);
    }
}

// Runs a listener at once.
fn run_now(machine: &mut Machine, listener: ListenerNo)
    requires lines { 1 ≤ machine.old.lines.spare }
    requires frames { 1 ≤ machine.old.frames.spare }
    ensures goes { (S : ScenarioData) → Comes S machine.old (runs_one S (calls_at S (stack machine.old.frames)) listener) machine.new }
    ensures sound { (S : ScenarioData) → IsBody (stack machine.old.frames) → ListenerBelow S (rank_at S machine.old) listener → DeedsBelow S (rank_at S machine.old) (later_deeds S (publication_of S listener)) → Leaves S machine.old no_tokens machine.new }
    ensures longer { IsLonger machine.old machine.new }
{
    machine.lines.push(Line::Listen(listener));
    machine.frames.push(Frame::Now { listener, place: 0 });
    machine.stage = Stage::Over(None);
}

/// Goes on with a listener that runs at once, or after it with the others.
pub(crate) fn go_on_listener(
    machine: &mut Machine,
    setup: &Setup,
    listener: ListenerNo,
    place: u32,
    thrown: Option<ClassNo>,
)
    requires playable { IsPlayable setup.now.scenario }
    requires class { IsClass setup.now.scenario thrown }
    requires below { ListenerBelow setup.now.scenario (rank_at setup.now.scenario machine.old) listener }
    requires body { IsBody (stack machine.old.frames) }
    requires deeds { DeedsBelow setup.now.scenario (rank_at setup.now.scenario machine.old) (later_deeds setup.now.scenario (publication_of setup.now.scenario listener)) }
    requires within { IsWithin setup.now.scenario machine.old no_tokens }
    requires lines { 1 ≤ machine.old.lines.spare }
    requires frames { 2 ≤ machine.old.frames.spare }
    ensures goes { Comes setup.now.scenario machine.old (λ st. now_after setup.now.scenario (calls_at setup.now.scenario (stack machine.old.frames)) listener place (Over thrown st)) machine.new }
    ensures sound { IsSound setup.now.scenario machine.new (held machine.new.stage) }
    ensures moves { Moves 2 machine.old machine.new }
{
    match statement_of(setup, listener, place, thrown) {
        Some(statement) => {
            machine.frames.push(Frame::Now {
                listener,
                place: place + 1,
            });
            make_in_callback(machine, setup, statement);
        }
        None => match thrown {
            Some(_) => machine.stage = Stage::Over(thrown),
            None => {
                machine.stage = Stage::Dealing(Publication {
                    event: event_of(setup, listener),
                    after: Some(listener),
                    registers: false,
                });
            }
        },
    }
}
