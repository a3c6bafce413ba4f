// What a note of the pool or of the store does, once its line is said.
ghost use Rattle.std.specs.Prelude.{◌≡◌, ◌≤◌, ◌<◌, ◌^◌, ◌-◌, Some, None, IsSome, IsTrue};
ghost use Rattle.stx_base.specs.declared.history.Note.{Note as NoteData};
ghost use Rattle.stx_base.specs.Notes.{is_answer, note_line, pool_line as pool_line_of, store_line as store_line_of};
ghost use Rattle.stx_machine.specs.Machine.{Comes, IsIntercepting, MovesLines, stack, want_of};
ghost use Rattle.stx_steps.specs.Steps.{HasSuspended, Hears, IsHeard, HearsPool, HearsStore, finds_none, starts, starts_pointed, IsOpening};
ghost use Rattle.stx_model.specs.Playable.{IsPlayable};
ghost use Rattle.stx_conn.specs.Bindings.{new_binding};
ghost use Rattle.stx_base.specs.Limits.{most_calls};
ghost use Rattle.stx_context.specs.Carrying.{bare, context_of};
ghost use Rattle.stx_scenario.specs.declared.scenario.Scenario.{Scenario as ScenarioData};
ghost use Rattle.stx_machine.specs.Sound.{CallOpens, CallPoints, IsSound, bond_of, brought, held, held_out, no_tokens, one_more, points_of, standing_of};

use std::alloc::Global;
use stx_base::{Line, Note, PoolNote, StoreNote};
use stx_conn::Holder;
use stx_machine::{Machine, Phase, Place, Setup, Stage, attribute_of};
use stx_scenario::CANNOT_GET_JDBC_CONNECTION_EXCEPTION;

/// The one line of a note.
pub fn line_of(note: Note) -> Line
    ensures { result ≡ note_line note }
{
    match note {
        Note::Pool(note) => pool_line(note),
        Note::Store(note) => store_line(note),
    }
}

fn pool_line(note: PoolNote) -> Line
    ensures { result ≡ pool_line_of note }
{
    match note {
        PoolNote::Taken(connection) => Line::Take(Some(connection)),
        PoolNote::Empty => Line::Take(None),
        PoolNote::Given(connection) => Line::Give(connection),
    }
}

fn store_line(note: StoreNote) -> Line
    ensures { result ≡ store_line_of note }
{
    match note {
        StoreNote::Begin(tx) => Line::Begin(tx),
        StoreNote::Access { tx, access, answer } => Line::Row { tx, access, answer },
        StoreNote::Point(tx) => Line::Savepoint(tx),
        StoreNote::BackTo(tx) => Line::BackTo(tx),
        StoreNote::Release(tx) => Line::Release(tx),
        StoreNote::Commit { tx, number } => Line::Commit { tx, number },
        StoreNote::Rollback(tx) => Line::Rollback(tx),
        StoreNote::Auto { access, answer } => Line::Auto { access, answer },
    }
}

/// Takes in a note that answers what is wanted: its line, and a small step.
pub fn hear(machine: &mut Machine, alloc: Global, setup: &Setup, note: Note)
    requires playable { IsPlayable setup.now.scenario }
    requires sound { IsSound setup.now.scenario machine.old (brought note (held_out machine.old.stage)) }
    requires answers { IsTrue (is_answer (want_of machine.old.stage) note) }
    requires lines { 4 ≤ machine.old.lines.spare }
    requires frames { 1 ≤ machine.old.frames.spare }
    ensures goes { Hears setup.now.scenario note machine.old machine.new }
    ensures sound { IsSound setup.now.scenario machine.new (held machine.new.stage) }
    ensures longer { MovesLines machine.old machine.new }
{
    machine.lines.push(line_of(note));
    match note {
        Note::Pool(note) => hear_pool(machine, setup, note),
        Note::Store(note) => hear_store(machine, alloc, setup, note),
    }
}

// Goes on after a note of the pool whose line was said.
fn hear_pool(machine: &mut Machine, setup: &Setup, note: PoolNote)
    requires heard { IsHeard setup.now.scenario (NoteData.Pool note) machine.old }
    ensures goes { HearsPool setup.now.scenario note machine.old machine.new }
    ensures sound { IsSound setup.now.scenario machine.new (held machine.new.stage) }
    ensures longer { MovesLines machine.old machine.new }
{
    match (machine.stage, note) {
        (Stage::Connecting { access, then }, PoolNote::Taken(connection)) => {
            machine.stage = Stage::Accessing {
                place: Place::Connection(connection),
                access,
                then,
            };
        }
        (Stage::Connecting { .. }, PoolNote::Empty) => {
            machine.throw(CANNOT_GET_JDBC_CONNECTION_EXCEPTION);
        }
        (Stage::Returning { thrown, .. }, PoolNote::Given(_)) => machine.conclude(thrown),
        (Stage::Taking, PoolNote::Taken(connection)) => {
            machine.stage = Stage::Beginning(connection);
        }
        (Stage::Taking, PoolNote::Empty) => give_up_opening(machine),
        (Stage::GivingBack(_), PoolNote::Given(_)) => machine.stage = Stage::Completing,
        _ => unreachable!(),
    }
}

// Goes on after a note of the store whose line was said.
fn hear_store(machine: &mut Machine, alloc: Global, setup: &Setup, note: StoreNote)
    requires heard { IsHeard setup.now.scenario (NoteData.Store note) machine.old }
    ensures goes { HearsStore setup.now.scenario note machine.old machine.new }
    ensures sound { IsSound setup.now.scenario machine.new (held machine.new.stage) }
    ensures longer { MovesLines machine.old machine.new }
{
    match (machine.stage, note) {
        (Stage::Accessing { place, then, .. }, StoreNote::Access { answer, .. }) => {
            machine.answer(place, then, answer);
        }
        (Stage::Accessing { place, then, .. }, StoreNote::Auto { answer, .. }) => {
            machine.answer(place, then, answer);
        }
        (Stage::Beginning(connection), StoreNote::Begin(tx)) => {
            begin(machine, alloc, setup, connection, tx);
        }
        (Stage::Pointing(_), StoreNote::Point(_)) => start_point(machine),
        (Stage::GoingBack(_), StoreNote::BackTo(_)) => {
            machine.clear_mark();
            machine.stage = Stage::Completing;
        }
        (Stage::Releasing(_), StoreNote::Release(_)) => machine.stage = Stage::Completing,
        (Stage::Committing(_), StoreNote::Commit { .. }) => machine.stage = Stage::Completing,
        (Stage::RollingBack(_), StoreNote::Rollback(_)) => machine.stage = Stage::Completing,
        _ => unreachable!(),
    }
}

// No connection was left: what was suspended is carried again, and the call is to be refused.
fn give_up_opening(machine: &mut Machine)
    requires opening { IsOpening machine.old no_tokens }
    requires suspended { HasSuspended (stack machine.old.frames) }
    requires lines { 1 ≤ machine.old.lines.spare }
    ensures goes { (S : ScenarioData) → CallOpens S (stack machine.old.frames) → Comes S machine.old (finds_none S (stack machine.old.frames)) machine.new }
    ensures sound { (S : ScenarioData) → CallOpens S (stack machine.old.frames) → IsSound S machine.new (held machine.new.stage) }
    ensures longer { MovesLines machine.old machine.new }
{
    let mut call = machine.take_off();
    match call.interception.scope.take_held() {
        Some(suspended) => machine.resume(suspended),
        None => unreachable!(),
    }
    machine.put_back(call, Phase::Opening);
    machine.stage = Stage::Resuming;
}

// The savepoint was made: the nested scope is open, and the body begins.
fn start_point(machine: &mut Machine)
    requires call { IsIntercepting (stack machine.old.frames) }
    requires few { points_of (bond_of machine.old.context.tx) < 2 ^ 32 - 1 }
    requires bound { IsSome machine.old.context.tx }
    requires lines { 1 ≤ machine.old.lines.spare }
    ensures goes { (S : ScenarioData) → CallPoints S (standing_of machine.old.context) (stack machine.old.frames) → Comes S machine.old (starts_pointed S (stack machine.old.frames)) machine.new }
    ensures sound { (S : ScenarioData) → CallPoints S (standing_of machine.old.context) (stack machine.old.frames) → machine.old.top < most_calls → machine.old.tokens ≡ no_tokens → IsSound S machine.new (held machine.new.stage) }
    ensures longer { MovesLines machine.old machine.new }
{
    let call = machine.take_off();
    enter_point(machine);
    machine.start(call.method, call.catch, call.interception.into_scope());
}

// One open savepoint more.
fn enter_point(machine: &mut Machine)
    requires few { points_of (bond_of machine.old.context.tx) < 2 ^ 32 - 1 }
    ensures context { context_of machine.new.context ≡ context_of machine.old.context }
    ensures bond { bond_of machine.new.context.tx ≡ one_more (bond_of machine.old.context.tx) }
    ensures rest { machine.new ≡ record machine.old { context = machine.new.context } }
{
    if let Some(holder) = machine.context.holder() {
        holder.enter_point();
    }
}

// The transaction began: the scope is open, and the body begins.
fn begin(machine: &mut Machine, alloc: Global, setup: &Setup, connection: u32, tx: u32)
    requires opening { IsOpening machine.old (record { connection = Some connection; session = Some tx }) }
    requires call { CallOpens setup.now.scenario (stack machine.old.frames) }
    requires lines { 1 ≤ machine.old.lines.spare }
    ensures goes { Comes setup.now.scenario machine.old (starts setup.now.scenario (stack machine.old.frames) connection tx) machine.new }
    ensures sound { IsSound setup.now.scenario machine.new (held machine.new.stage) }
    ensures longer { MovesLines machine.old machine.new }
{
    let call = machine.take_off();
    let scope = call.interception.into_scope();
    let read_only = attribute_of(setup, call.method).read_only;
    bind(machine, connection, tx, read_only);
    machine.start_syncs_if(alloc, scope.owns());
    machine.start(call.method, call.catch, scope);
}

// Binds the connection that was taken, with the transaction that began on it.
fn bind(machine: &mut Machine, connection: u32, tx: u32, read_only: bool)
    requires bare { machine.old.context ≡ bare }
    requires tokens { machine.old.tokens ≡ record { connection = Some connection; session = Some tx } }
    ensures context { machine.new.context ≡ record { tx = Some (new_binding connection tx read_only); syncs = None } }
    ensures tokens { machine.new.tokens ≡ no_tokens }
    ensures rest { machine.new ≡ record machine.old { context = machine.new.context; tokens = machine.new.tokens } }
{
    let connection = machine.tokens.spend_connection(connection);
    let session = machine.tokens.spend_session(tx);
    machine
        .context
        .bind(Holder::new(connection, session, read_only));
}
