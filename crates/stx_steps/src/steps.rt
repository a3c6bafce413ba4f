// Small steps: what is done at once, one piece at a time.
ghost use Rattle.std.specs.Prelude.{◌≡◌, ◌≤◌, ◌<◌, ◌+◌, ◌^◌, length, map, true, false, OnOk, OnErr};
ghost use Rattle.std.specs.Option.{option_map};
ghost use Rattle.stx_events.specs.Deeds.{deed_of};
ghost use Rattle.stx_base.specs.Weight.{body_of, rank};
ghost use Rattle.stx_model.specs.Meanings.{Over};
ghost use Rattle.stx_model.specs.Playable.{IsPlayable};
ghost use Rattle.stx_model.specs.Script.{statement as statement_in};
ghost use Rattle.stx_context.specs.Carrying.{context_of};
ghost use Rattle.stx_sync.specs.Registries.{registration};
ghost use Rattle.stx_machine.specs.declared.stage.Stage.{Stage as StageData};
ghost use Rattle.stx_machine.specs.Machine.{Comes, ComesTo, Goes, HasRegistryRoom, IsClass, IsLonger, Moves, MovesLines, MovesOn, body_after, falls, inside, left, left_of, of_top, stack, told_by};
ghost use Rattle.stx_steps.specs.Steps.{deed_by, IsRounding, IsEndingCall, IsNext, IsSoundClient, MayMake, TakesRound};
ghost use Rattle.stx_machine.specs.Sound.{IsApart, IsBody, IsCall, IsSound, IsWithin, ScopeRuns, below_call, held, no_tokens, rank_at, standing_of};

use crate::ahead::{Ahead, prepare};
use crate::publications::{deal, go_on_listener, publish};
use crate::rounds::{Telling, go_on_round, tell};
use std::alloc::Global;
use stx_frames::Frame;
use stx_machine::{Intercepted, Interception, Machine, Phase, Setup, Stage, access_of};
use stx_scenario::{ClassNo, List, MethodNo, NoMemory, Stmt};
use stx_sync::Registered;

/// Does all that is done at once, up to the next shared call or to the end. For want of memory it stops before a step.
pub fn fall(
    machine: &mut Machine,
    alloc: Global,
    setup: &Setup,
    number: u32,
) -> Result<(), NoMemory>
    requires playable { IsPlayable setup.now.scenario }
    requires client { number < length setup.now.scenario.clients }
    requires sound { IsSound setup.now.scenario machine.old (held machine.old.stage) }
    ensures goes { Goes setup.now.scenario number machine.old machine.new }
    ensures sound { IsSound setup.now.scenario machine.new (held machine.new.stage) }
    ensures waits { OnOk result (falls machine.new.stage ≡ false) }
    ensures kept { OnErr result (MovesLines machine.old machine.new) }
{
    while machine.stage.falls() {
        fall_to_line(machine, alloc, setup, number)?;
    }
    Ok(())
}

// Does what is done at once up to the next line, or up to the next shared call or the end.
fn fall_to_line(
    machine: &mut Machine,
    alloc: Global,
    setup: &Setup,
    number: u32,
) -> Result<(), NoMemory>
    requires client { IsSoundClient setup.now.scenario number machine.old }
    ensures goes { Goes setup.now.scenario number machine.old machine.new }
    ensures sound { IsSound setup.now.scenario machine.new (held machine.new.stage) }
    ensures longer { OnOk result (falls machine.new.stage ≡ true → IsLonger machine.old machine.new) }
    ensures kept { OnErr result (MovesLines machine.old machine.new) }
{
    let said = machine.lines.as_slice().len();
    while machine.stage.falls() && machine.lines.as_slice().len() == said {
        let ahead = prepare(machine, alloc, setup)?;
        step(machine, alloc, setup, number, ahead);
    }
    Ok(())
}

// One small step, with what it tells and deals with.
fn step(machine: &mut Machine, alloc: Global, setup: &Setup, number: u32, ahead: Ahead)
    requires playable { IsPlayable setup.now.scenario }
    requires client { number < length setup.now.scenario.clients }
    requires sound { IsSound setup.now.scenario machine.old (held machine.old.stage) }
    requires falls { falls machine.old.stage ≡ true }
    requires told { map registration ahead.told ≡ told_by setup.now.scenario machine.old.stage (context_of machine.old.context) }
    requires deed { option_map deed_of ahead.deed ≡ deed_by setup.now.scenario machine.old.stage }
    requires few { length ahead.told < 2 ^ 32 }
    requires lines { length ahead.told + 4 ≤ machine.old.lines.spare }
    requires frames { 1 ≤ machine.old.frames.spare }
    requires registry { HasRegistryRoom machine.old.context }
    ensures goes { Goes setup.now.scenario number machine.old machine.new }
    ensures sound { IsSound setup.now.scenario machine.new (held machine.new.stage) }
    ensures moves { Moves (left machine.old) machine.old machine.new }
{
    let Ahead { told, deed } = ahead;
    match machine.stage {
        Stage::Opening { method, catch } => {
            machine.open(alloc, setup, method, catch, told.as_slice());
        }
        Stage::Over(thrown) => go_on(machine, setup, number, thrown),
        Stage::Completing => go_on_completing(machine, setup),
        Stage::Dealing(publication) => deal(machine, setup, publication, deed),
        Stage::Rounding => tell(machine, told),
        Stage::Resuming => machine.tell_resumed(told),
        _ => unreachable!(),
    }
}

// The next action of the innermost call's completion.
fn go_on_completing(machine: &mut Machine, setup: &Setup)
    requires playable { IsPlayable setup.now.scenario }
    requires ending { IsEndingCall setup.now.scenario machine.old }
    requires lines { 2 ≤ machine.old.lines.spare }
    ensures goes { Comes setup.now.scenario machine.old (of_top setup.now.scenario (stack machine.old.frames) StageData.Completing) machine.new }
    ensures sound { IsSound setup.now.scenario machine.new (held machine.new.stage) }
    ensures moves { Moves (left_of StageData.Completing (stack machine.old.frames)) machine.old machine.new }
{
    let call = machine.take_off();
    match call.interception.phase {
        Phase::Completing { rest, thrown } => machine.complete(setup, call, rest, thrown),
        Phase::Opening | Phase::Running | Phase::Round(_) => unreachable!(),
    }
}

// The innermost body goes on after a statement; where no call is under way, the client goes on.
fn go_on(machine: &mut Machine, setup: &Setup, number: u32, thrown: Option<ClassNo>)
    requires playable { IsPlayable setup.now.scenario }
    requires client { number < length setup.now.scenario.clients }
    requires class { IsClass setup.now.scenario thrown }
    requires within { IsWithin setup.now.scenario machine.old no_tokens }
    requires lines { 3 ≤ machine.old.lines.spare }
    requires frames { 1 ≤ machine.old.frames.spare }
    requires registry { HasRegistryRoom machine.old.context }
    ensures goes { ComesTo setup.now.scenario number machine.old (Over thrown) machine.new }
    ensures sound { IsSound setup.now.scenario machine.new (held machine.new.stage) }
    ensures moves { Moves (left_of (StageData.Over thrown) (stack machine.old.frames)) machine.old machine.new }
{
    match machine.frames.pop() {
        None => machine.call_at(setup, number, machine.top + 1),
        Some(
            Frame::Body {
                method,
                place,
                catch,
                scope,
            },
        ) => go_on_body(machine, setup, method, place, catch, scope, thrown),
        Some(
            Frame::Round {
                todo,
                at,
                place,
                round: _,
                thrown: _,
            },
        ) => {
            let telling = take_round(machine, todo, at, place);
            go_on_round(machine, setup, telling, thrown);
        }
        Some(Frame::Now { listener, place }) => {
            go_on_listener(machine, setup, listener, place, thrown);
        }
    }
}

// The round of these registrations, with the innermost call, of which it is part.
fn take_round(machine: &mut Machine, todo: List<Registered>, at: u32, place: u32) -> Telling
    requires call { IsRounding (stack machine.old.frames) }
    ensures { TakesRound machine.old todo at place result machine.new }
{
    let call = machine.take_off();
    match call.interception.phase {
        Phase::Round(course) => Telling {
            call,
            course,
            todo,
            at,
            place,
        },
        Phase::Opening | Phase::Running | Phase::Completing { .. } => unreachable!(),
    }
}

// A body goes on at this place, or its call ends.
fn go_on_body(
    machine: &mut Machine,
    setup: &Setup,
    method: MethodNo,
    place: u32,
    catch: Option<ClassNo>,
    scope: Option<Interception>,
    thrown: Option<ClassNo>,
)
    requires playable { IsPlayable setup.now.scenario }
    requires call { IsCall setup.now.scenario (rank_at setup.now.scenario machine.old) method catch }
    requires scope { ScopeRuns setup.now.scenario (standing_of machine.old.context) method scope }
    requires apart { IsApart setup.now.scenario machine.old (below_call scope (standing_of machine.old.context)) }
    requires class { IsClass setup.now.scenario thrown }
    requires lines { 2 ≤ machine.old.lines.spare }
    requires frames { 2 ≤ machine.old.frames.spare }
    requires registry { HasRegistryRoom machine.old.context }
    ensures goes { Comes setup.now.scenario machine.old (λ st. body_after setup.now.scenario method place catch scope (Over thrown st)) machine.new }
    ensures sound { IsSound setup.now.scenario machine.new (held machine.new.stage) }
    ensures moves { MovesOn machine.old machine.new }
{
    match statement_at(setup, method, place, thrown) {
        Some(statement) => {
            machine.frames.push(Frame::Body {
                method,
                place: place + 1,
                catch,
                scope,
            });
            make(machine, setup, method, statement);
        }
        None => match scope {
            Some(interception) => {
                let call = Intercepted {
                    method,
                    place,
                    catch,
                    interception,
                };
                machine.end(setup, call, thrown);
            }
            None => machine.leave(setup, method, catch, thrown),
        },
    }
}

// Does a statement of the innermost body.
fn make(machine: &mut Machine, setup: &Setup, caller: MethodNo, statement: Stmt)
    requires playable { IsPlayable setup.now.scenario }
    requires may { MayMake setup.now.scenario caller statement }
    requires within { IsWithin setup.now.scenario machine.old no_tokens }
    requires rank { rank_at setup.now.scenario machine.old ≡ rank setup.now.scenario caller }
    requires body { IsBody (stack machine.old.frames) }
    requires lines { 1 ≤ machine.old.lines.spare }
    requires frames { 1 ≤ machine.old.frames.spare }
    requires registry { HasRegistryRoom machine.old.context }
    ensures goes { Comes setup.now.scenario machine.old (statement_in setup.now.scenario (inside setup.now.scenario caller) statement) machine.new }
    ensures sound { IsSound setup.now.scenario machine.new (held machine.new.stage) }
    ensures moves { MovesOn machine.old machine.new }
{
    match statement {
        Stmt::Call { method, catch } => machine.call(setup, method, catch),
        Stmt::This { method, catch } => machine.call_directly(method, catch),
        Stmt::Throw(class) => machine.throw(class),
        Stmt::Mark => machine.mark(),
        Stmt::Register(sync) => machine.register(setup, sync),
        Stmt::Publish(event) => publish(machine, event),
        _ => match access_of(statement) {
            Some((access, then)) => machine.want_access(access, then),
            None => unreachable!(),
        },
    }
}

// The next statement of a body, where nothing was thrown and there is one more.
fn statement_at(
    setup: &Setup,
    method: MethodNo,
    place: u32,
    thrown: Option<ClassNo>,
) -> Option<Stmt>
    requires method { method.0 < length setup.now.scenario.methods }
    ensures { IsNext (body_of setup.now.scenario method) place thrown result }
{
    match thrown {
        Some(_) => None,
        None => match setup.scenario.method(method).body.get(place as usize) {
            Some(statement) => Some(*statement),
            None => None,
        },
    }
}
