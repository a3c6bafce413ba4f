// Rounds over the registrations of a scope, and the callbacks of each.
ghost use Rattle.std.specs.Prelude.{◌≡◌, ◌≤◌, ◌<◌, ◌+◌, ◌^◌, length, None, Some};
ghost use Rattle.stx_scenario.specs.declared.scenario.Scenario.{Scenario as ScenarioData};
ghost use Rattle.stx_base.specs.Limits.{most_calls};
ghost use Rattle.stx_model.specs.Contexts.{without_syncs};
ghost use Rattle.stx_model.specs.Ending.{completion_refused as refused_of};
ghost use Rattle.stx_model.specs.Meanings.{Over};
ghost use Rattle.stx_model.specs.Playable.{IsPlayable};
ghost use Rattle.stx_model.specs.Rounds.{callback_line as callback_line_of, callback_statement as callback_statement_in};
ghost use Rattle.stx_model.specs.Scopes.{later_or};
ghost use Rattle.stx_context.specs.Carrying.{context_of};
ghost use Rattle.stx_machine.specs.declared.stage.Stage.{Stage as StageData};
ghost use Rattle.stx_machine.specs.Machine.{AreTold, Comes, calls_at, IsClass, Moves, MovesOn, acts_of, callback_of as callback_in, last_told, left, left_after, left_of, of_top, rest_after as rest_in, stack, status as status_of, stops as stops_at};
ghost use Rattle.stx_steps.specs.Steps.{IsRounding, IsTakenOff, IsToldOn, SaysCallback, runs_on, telling_after, tells_on, IsInRound, IsNext, MayCallBack};
ghost use Rattle.stx_machine.specs.Sound.{CallRounds, IsApart, IsSound, IsWithin, below_round, held, no_tokens, rank_at, standing_of};

use stx_base::{Action, Ending, Kind, Label, Line, Round};
use stx_events::runs_in;
use stx_frames::Frame;
use stx_machine::{Course, Intercepted, Machine, Phase, Setup, Stage, access_of};
use stx_manager::completion;
use stx_scenario::{ClassNo, List, ListenerNo, Stmt};
use stx_sync::Registered;

/// A round that was taken off the others with the call that it is part of: how many registrations were told, and how
/// many statements of the last one's callback were made.
#[derive(Drop)]
pub(crate) struct Telling {
    pub(crate) call: Intercepted,
    pub(crate) course: Course,
    pub(crate) todo: List<Registered>,
    pub(crate) at: u32,
    pub(crate) place: u32,
}

// Whether the first exception ends a round (`triggerBeforeCommit`, `triggerAfterCommit`).
fn stops(round: Round) -> bool
    ensures { result ≡ stops_at round }
{
    matches!(round, Round::BeforeCommit | Round::AfterCommit)
}

// The status that a round's callbacks are told.
fn status(round: Round, committed: bool) -> bool
    ensures { result ≡ status_of round committed }
{
    match round {
        Round::AfterCompletion => committed,
        Round::BeforeCompletion => false,
        Round::BeforeCommit | Round::AfterCommit => true,
    }
}

// The actions after a before_commit round in which a callback threw: nothing is committed.
fn completion_refused(kind: Kind) -> &'static [Action]
    ensures { result.now ≡ refused_of kind }
{
    match kind {
        Kind::Fresh => completion(Kind::Fresh, Ending::Rollback),
        _ => completion(Kind::Empty, Ending::Rollback),
    }
}

// The actions after a round in which this was thrown or nothing: those that are left, but where a before_commit round threw.
fn rest_after(
    kind: Kind,
    round: Round,
    rest: &'static [Action],
    thrown: Option<ClassNo>,
) -> &'static [Action]
    ensures { result.now ≡ rest_in kind round rest.now thrown }
{
    match (round, thrown) {
        (Round::BeforeCommit, Some(_)) => completion_refused(kind),
        _ => rest,
    }
}

// The line of a callback.
fn callback_line(round: Round, committed: bool, label: Label) -> Line
    ensures { result ≡ callback_line_of round committed label }
{
    match round {
        Round::BeforeCommit => Line::BeforeCommit(label),
        Round::BeforeCompletion => Line::BeforeCompletion(label),
        Round::AfterCommit => Line::AfterCommit(label),
        Round::AfterCompletion => Line::AfterCompletion { label, committed },
    }
}

// The listener runs in a round.
fn listener_runs(setup: &Setup, listener: ListenerNo, round: Round, committed: bool) -> bool
    ensures { result ≡ runs_on setup.now.scenario listener round committed }
{
    match setup.scenario.listeners.get(listener.0 as usize) {
        Some(listener) => runs_in(listener.phase, round, committed),
        None => false,
    }
}

// The statements of a registration's callback.
fn callback_of(setup: &Setup, round: Round, committed: bool, label: Label) -> &[Stmt]
    ensures { result.now ≡ callback_in setup.now.scenario round committed label }
{
    match label {
        Label::Sync(sync) => match setup.scenario.syncs.get(sync.0 as usize) {
            Some(sync) => match round {
                Round::BeforeCommit => sync.before_commit.as_slice(),
                Round::BeforeCompletion => sync.before_completion.as_slice(),
                Round::AfterCommit => sync.after_commit.as_slice(),
                Round::AfterCompletion => sync.after_completion.as_slice(),
            },
            None => &[],
        },
        Label::Listener(listener) => match setup.scenario.listeners.get(listener.0 as usize) {
            Some(listener) if runs_in(listener.phase, round, committed) => listener.body.as_slice(),
            _ => &[],
        },
    }
}

// The next statement of the callback under way, where nothing was thrown and there is one more.
fn next_statement(setup: &Setup, telling: &Telling, thrown: Option<ClassNo>) -> Option<Stmt>
    ensures { IsNext (last_told setup.now.scenario telling.now.course telling.now.todo telling.now.at) telling.now.place thrown result }
{
    if thrown.is_some() || telling.at == 0 {
        return None;
    }
    let course = telling.course;
    match telling.todo.get(telling.at as usize - 1) {
        Some(told) => {
            let committed = status(course.round, course.committed);
            let callback = callback_of(setup, course.round, committed, told.label);
            match callback.get(telling.place as usize) {
                Some(statement) => Some(*statement),
                None => None,
            }
        }
        None => None,
    }
}

/// Begins to tell these registrations, in the round that the innermost call is at. Before the last round the
/// registrations are taken out.
pub(crate) fn tell(machine: &mut Machine, told: List<Registered>)
    requires call { IsRounding (stack machine.old.frames) }
    requires told { AreTold told (context_of machine.old.context) }
    requires frames { 1 ≤ machine.old.frames.spare }
    ensures goes { (S : ScenarioData) → Comes S machine.old (of_top S (stack machine.old.frames) StageData.Rounding) machine.new }
    ensures sound { (S : ScenarioData) → CallRounds S (standing_of machine.old.context) (stack machine.old.frames) → length told < 2 ^ 32 → machine.old.top < most_calls → machine.old.tokens ≡ no_tokens → IsSound S machine.new no_tokens }
    ensures held { held machine.new.stage ≡ no_tokens }
    ensures moves { Moves (left_of StageData.Rounding (stack machine.old.frames)) machine.old machine.new }
{
    let call = machine.take_off();
    match call.interception.phase {
        Phase::Round(course) => {
            if let Round::AfterCompletion = course.round {
                end_syncs(machine);
            }
            put_back_round(
                machine,
                Telling {
                    call,
                    course,
                    todo: told,
                    at: 0,
                    place: 0,
                },
            );
            machine.stage = Stage::Over(None);
        }
        Phase::Opening | Phase::Running | Phase::Completing { .. } => unreachable!(),
    }
}

// Takes the registrations out of the context, if synchronisation is active.
fn end_syncs(machine: &mut Machine)
    ensures context { context_of machine.new.context ≡ without_syncs (context_of machine.old.context) }
    ensures tx { machine.new.context.tx ≡ machine.old.context.tx }
    ensures rest { machine.new ≡ record machine.old { context = machine.new.context } }
{
    if machine.context.active().is_some() {
        drop(machine.context.end_syncs());
    }
}

// Puts a round on top of the others, with the call that it is part of.
fn put_back_round(machine: &mut Machine, telling: Telling)
    requires frames { 2 ≤ machine.old.frames.spare }
    ensures { IsToldOn machine.old telling machine.new }
{
    machine.put_back(telling.call, Phase::Round(telling.course));
    machine.frames.push(Frame::Round {
        round: telling.course.round,
        todo: telling.todo,
        at: telling.at,
        place: telling.place,
        thrown: None,
    });
}

/// Goes on with a round: with the next statement of the callback under way, with the next callback, or with what comes
/// after the round.
pub(crate) fn go_on_round(
    machine: &mut Machine,
    setup: &Setup,
    telling: Telling,
    thrown: Option<ClassNo>,
)
    requires playable { IsPlayable setup.now.scenario }
    requires class { IsClass setup.now.scenario thrown }
    requires telling { IsTakenOff setup.now.scenario machine.old telling }
    requires lines { 3 ≤ machine.old.lines.spare }
    requires frames { 3 ≤ machine.old.frames.spare }
    ensures goes { Comes setup.now.scenario machine.old (λ st. telling_after setup.now.scenario telling (Over thrown st)) machine.new }
    ensures sound { IsSound setup.now.scenario machine.new (held machine.new.stage) }
    ensures moves { Moves (left_after telling.course + 1) machine.old machine.new }
{
    match next_statement(setup, &telling, thrown) {
        Some(statement) => go_on_callback(machine, setup, telling, statement),
        None => end_callback(machine, setup, telling, thrown),
    }
}

// Makes the next statement of the callback under way.
fn go_on_callback(machine: &mut Machine, setup: &Setup, telling: Telling, statement: Stmt)
    requires playable { IsPlayable setup.now.scenario }
    requires next { IsNext (last_told setup.now.scenario telling.course telling.todo telling.at) telling.place None (Some statement) }
    requires telling { IsTakenOff setup.now.scenario machine.old telling }
    requires lines { 1 ≤ machine.old.lines.spare }
    requires frames { 3 ≤ machine.old.frames.spare }
    ensures goes { Comes setup.now.scenario machine.old (λ st. telling_after setup.now.scenario telling (Over None st)) machine.new }
    ensures sound { IsSound setup.now.scenario machine.new (held machine.new.stage) }
    ensures moves { MovesOn machine.old machine.new }
{
    let next = Telling {
        place: telling.place + 1,
        ..telling
    };
    put_back_round(machine, next);
    make_in_callback(machine, setup, statement);
}

/// Does a statement of a callback.
pub(crate) fn make_in_callback(machine: &mut Machine, setup: &Setup, statement: Stmt)
    requires playable { IsPlayable setup.now.scenario }
    requires may { MayCallBack setup.now.scenario (rank_at setup.now.scenario machine.old) statement }
    requires within { IsWithin setup.now.scenario machine.old no_tokens }
    requires lines { 1 ≤ machine.old.lines.spare }
    requires frames { 1 ≤ machine.old.frames.spare }
    ensures goes { Comes setup.now.scenario machine.old (callback_statement_in setup.now.scenario (calls_at setup.now.scenario (stack machine.old.frames)) statement) machine.new }
    ensures sound { IsSound setup.now.scenario machine.new (held machine.new.stage) }
    ensures moves { MovesOn machine.old machine.new }
{
    match statement {
        Stmt::Call { method, catch } => machine.call(setup, method, catch),
        Stmt::Throw(class) => machine.throw(class),
        _ => match access_of(statement) {
            Some((access, then)) => machine.want_access(access, then),
            None => unreachable!(),
        },
    }
}

// Ends the callback under way, which threw this or nothing: an exception ends the round or is swallowed.
fn end_callback(machine: &mut Machine, setup: &Setup, telling: Telling, thrown: Option<ClassNo>)
    requires class { IsClass setup.now.scenario thrown }
    requires over { IsNext (last_told setup.now.scenario telling.course telling.todo telling.at) telling.place thrown None }
    requires telling { IsTakenOff setup.now.scenario machine.old telling }
    requires lines { 3 ≤ machine.old.lines.spare }
    requires frames { 2 ≤ machine.old.frames.spare }
    ensures goes { Comes setup.now.scenario machine.old (λ st. telling_after setup.now.scenario telling (Over thrown st)) machine.new }
    ensures sound { IsSound setup.now.scenario machine.new no_tokens }
    ensures held { held machine.new.stage ≡ no_tokens }
    ensures moves { Moves (left_after telling.course + 1) machine.old machine.new }
{
    match thrown {
        Some(class) if stops(telling.course.round) => {
            end_round(machine, telling.call, telling.course, Some(class));
        }
        Some(class) => {
            machine.lines.push(Line::Swallow(class));
            tell_next(machine, setup, telling);
        }
        None => tell_next(machine, setup, telling),
    }
}

// Begins the next callback, or ends the round after the last.
fn tell_next(machine: &mut Machine, setup: &Setup, telling: Telling)
    requires telling { IsTakenOff setup.now.scenario machine.old telling }
    requires lines { 2 ≤ machine.old.lines.spare }
    requires frames { 2 ≤ machine.old.frames.spare }
    ensures goes { Comes setup.now.scenario machine.old (tells_on setup.now.scenario telling) machine.new }
    ensures sound { IsSound setup.now.scenario machine.new no_tokens }
    ensures held { held machine.new.stage ≡ no_tokens }
    ensures moves { Moves (left_after telling.course + 1) machine.old machine.new }
{
    let Course {
        round,
        committed,
        ..
    } = telling.course;
    match telling.todo.get(telling.at as usize) {
        None => end_round(machine, telling.call, telling.course, None),
        Some(told) => {
            let label = told.label;
            say_callback(machine, setup, round, status(round, committed), label);
            let next = Telling {
                at: telling.at + 1,
                place: 0,
                ..telling
            };
            put_back_round(machine, next);
            machine.stage = Stage::Over(None);
        }
    }
}

// Says the lines with which a registration's callback begins.
fn say_callback(machine: &mut Machine, setup: &Setup, round: Round, committed: bool, label: Label)
    requires lines { 2 ≤ machine.old.lines.spare }
    ensures { SaysCallback setup.now.scenario round committed label machine.old machine.new }
{
    machine.lines.push(callback_line(round, committed, label));
    if let Label::Listener(listener) = label
        && listener_runs(setup, listener, round, committed)
    {
        machine.lines.push(Line::Listen(listener));
    }
}

// Goes on after a round, in which this was thrown or nothing.
fn end_round(machine: &mut Machine, call: Intercepted, course: Course, thrown: Option<ClassNo>)
    requires frames { 1 ≤ machine.old.frames.spare }
    ensures goes { (S : ScenarioData) → Comes S machine.old (acts_of S call (rest_in call.interception.scope.kind course.round course.rest.now thrown) (later_or thrown course.thrown)) machine.new }
    ensures sound { (S : ScenarioData) → IsInRound S (rank_at S machine.old) call (standing_of machine.old.context) course → IsClass S thrown → IsApart S machine.old (below_round call.interception.scope course (standing_of machine.old.context)) → IsSound S machine.new no_tokens }
    ensures held { held machine.new.stage ≡ no_tokens }
    ensures lines { machine.new.lines ≡ machine.old.lines }
    ensures left { left machine.new ≤ left_after course }
{
    let rest = rest_after(
        call.interception.scope.kind(),
        course.round,
        course.rest,
        thrown,
    );
    machine.go_on_with(call, rest, thrown.or(course.thrown));
}
