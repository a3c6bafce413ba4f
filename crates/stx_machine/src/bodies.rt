// The statements of a body that call no method, each up to what it wants.
ghost use Rattle.std.specs.Prelude.{◌≡◌, ◌≤◌, false, Some, slice_get};
ghost use Rattle.stx_scenario.specs.declared.scenario.Scenario.{Scenario as ScenarioData};
ghost use Rattle.stx_base.specs.declared.history.Access.{Access as AccessData};
ghost use Rattle.stx_machine.specs.declared.stage.Then.{Then as ThenData};
ghost use Rattle.stx_model.specs.Below.{LabelBelow, SyncBelow};
ghost use Rattle.stx_model.specs.Statements.{value_of as value_in, added, concludes, marks, needed, order_of as order_in, register_sync, throws};
ghost use Rattle.stx_model.specs.Playable.{IsPlayable};
ghost use Rattle.stx_machine.specs.Sound.{CallsRun, Leaves, no_tokens, held_at, rank_at, standing_of};
ghost use Rattle.stx_machine.specs.Machine.{Comes, HasRegistryRoom, IsClass, IsLonger, MovesLines, RegistersIf, access_in, accesses, row_answered, ends_access, falls, row_access, row_statement_of, stack, sum_of};
ghost use Rattle.stx_sync.specs.Registries.{registration};

use crate::machine::Machine;
use crate::setup::Setup;
use crate::stage::{Place, Stage, Then};
use stx_base::{Access, Answer, Label, Line};
use stx_scenario::{
    ARITHMETIC_EXCEPTION, CANNOT_ACQUIRE_LOCK_EXCEPTION, ClassNo, ILLEGAL_STATE_EXCEPTION,
    NO_TRANSACTION_EXCEPTION, RowNo, Stmt, SyncNo,
};
use stx_sync::Registered;

/// The first access of a statement on a row, and what is done with its answer.
pub fn access_of(statement: Stmt) -> Option<(Access, Then)>
    ensures { result ≡ access_in statement }
{
    match statement {
        Stmt::Read(row) => Some((Access::Read(row), Then::Nothing)),
        Stmt::Write(row, value) => Some((Access::Write(row, value), Then::Nothing)),
        Stmt::Erase(row) => Some((Access::Erase(row), Then::Nothing)),
        Stmt::Need(row, least) => Some((Access::Read(row), Then::Need(least))),
        Stmt::Add(row, more) => Some((Access::Read(row), Then::Add(row, more))),
        _ => None,
    }
}

// The value that a read found; an absent row counts as 0.
fn value_of(answer: Answer) -> i64
    ensures { result ≡ value_in answer }
{
    match answer {
        Answer::Found(value) => value,
        _ => 0,
    }
}

// The sum, if it is a value.
fn summed(value: i64, more: i64) -> Option<i64>
    ensures { result ≡ sum_of value more }
{
    value.checked_add(more)
}

// The order value of a synchronisation.
fn order_of(setup: &Setup, sync: SyncNo) -> i32
    ensures { result ≡ order_in (slice_get setup.now.scenario.syncs sync.0) }
{
    match setup.scenario.syncs.get(sync.0 as usize) {
        Some(sync) => sync.order,
        None => 0,
    }
}

impl Machine {
    /// An exception arises.
    pub fn throw(&mut self, class: ClassNo)
        requires room { 1 ≤ self.old.lines.spare }
        ensures goes { (S : ScenarioData) → Comes S self.old (throws class) self.new }
        ensures longer { IsLonger self.old self.new }
        ensures sound { (S : ScenarioData) → IsClass S (Some class) → Leaves S self.old no_tokens self.new }
    {
        self.lines.push(Line::Throw(class));
        self.stage = Stage::Over(Some(class));
    }

    /// Ends a statement, which throws this or nothing.
    pub fn conclude(&mut self, thrown: Option<ClassNo>)
        requires room { 1 ≤ self.old.lines.spare }
        ensures goes { (S : ScenarioData) → Comes S self.old (concludes thrown) self.new }
        ensures sound { (S : ScenarioData) → IsClass S thrown → Leaves S self.old no_tokens self.new }
        ensures longer { MovesLines self.old self.new }
    {
        match thrown {
            Some(class) => self.throw(class),
            None => self.stage = Stage::Over(None),
        }
    }

    /// Marks the nearest scope that is open.
    pub fn mark(&mut self)
        requires room { 1 ≤ self.old.lines.spare }
        ensures goes { (S : ScenarioData) → Comes S self.old (marks self.old.local) self.new }
        ensures longer { IsLonger self.old self.new }
        ensures sound { (S : ScenarioData) → IsPlayable S → Leaves S self.old no_tokens self.new }
    {
        match self.local {
            Some(_) => {
                self.lines.push(Line::Mark);
                self.local = Some(true);
                self.stage = Stage::Over(None);
            }
            None => self.throw(NO_TRANSACTION_EXCEPTION),
        }
    }

    /// Registers a synchronisation, where synchronisation is active.
    pub fn register(&mut self, setup: &Setup, sync: SyncNo)
        requires lines { 1 ≤ self.old.lines.spare }
        requires registry { HasRegistryRoom self.old.context }
        ensures goes { Comes setup.now.scenario self.old (register_sync setup.now.scenario sync) self.new }
        ensures longer { IsLonger self.old self.new }
        ensures sound { IsPlayable setup.now.scenario → SyncBelow setup.now.scenario (rank_at setup.now.scenario self.old) sync → Leaves setup.now.scenario self.old no_tokens self.new }
    {
        let label = Label::Sync(sync);
        let order = order_of(setup, sync);
        if self.add_registration(Registered { label, order }) {
            self.stage = Stage::Over(None);
        } else {
            self.throw(ILLEGAL_STATE_EXCEPTION);
        }
    }

    /// Adds a registration and says its line, where synchronisation is active; else it answers `false`.
    pub fn add_registration(&mut self, registered: Registered) -> bool
        requires lines { 1 ≤ self.old.lines.spare }
        requires registry { HasRegistryRoom self.old.context }
        ensures registers { RegistersIf result (registration registered) self.old self.new }
        ensures runs { (S : ScenarioData) → LabelBelow S (rank_at S self.old) registered.label → CallsRun S (standing_of self.old.context) (stack self.old.frames) → CallsRun S (standing_of self.new.context) (stack self.old.frames) }
    {
        match self.context.registry() {
            Some(registry) => {
                registry.register(registered);
                self.lines.push(Line::Register(registered.label));
                true
            }
            None => false,
        }
    }

    /// Goes to a statement's first access, in the live transaction or on a connection of its own.
    pub fn want_access(&mut self, access: Access, then: Then)
        ensures goes { (S : ScenarioData) → Comes S self.old (row_statement_of self.old access then) self.new }
        ensures waits { falls self.new.stage ≡ false }
        ensures sound { (S : ScenarioData) → Leaves S self.old no_tokens self.new }
    {
        self.stage = match self.context.bound() {
            Some(holder) => Stage::Accessing {
                place: Place::Transaction(holder.numbers().1),
                access,
                then,
            },
            None => Stage::Connecting { access, then },
        };
    }

    // Ends a statement on a row; outside a transaction the connection is given back first.
    fn end_access(&mut self, place: Place, thrown: Option<ClassNo>)
        requires room { 1 ≤ self.old.lines.spare }
        ensures goes { (S : ScenarioData) → Comes S self.old (ends_access place thrown) self.new }
        ensures sound { (S : ScenarioData) → IsClass S thrown → Leaves S self.old (held_at place) self.new }
        ensures longer { MovesLines self.old self.new }
    {
        match place {
            Place::Transaction(_) => self.conclude(thrown),
            Place::Connection(connection) => self.stage = Stage::Returning { connection, thrown },
        }
    }

    /// Goes on after the answer to a statement's access.
    pub fn answer(&mut self, place: Place, then: Then, answer: Answer)
        requires room { 1 ≤ self.old.lines.spare }
        ensures goes { (S : ScenarioData) → Comes S self.old (row_answered place then answer) self.new }
        ensures sound { (S : ScenarioData) → IsPlayable S → Leaves S self.old (held_at place) self.new }
        ensures longer { MovesLines self.old self.new }
    {
        if let Answer::Busy(_) = answer {
            return self.end_access(place, Some(CANNOT_ACQUIRE_LOCK_EXCEPTION));
        }
        match then {
            Then::Nothing => self.end_access(place, None),
            Then::Need(least) => self.need(place, least, answer),
            Then::Add(row, more) => self.add(place, row, more, answer),
        }
    }

    // Goes on after the read of a need.
    fn need(&mut self, place: Place, least: i64, answer: Answer)
        requires room { 1 ≤ self.old.lines.spare }
        ensures goes { (S : ScenarioData) → Comes S self.old (needed (row_access place) least answer) self.new }
        ensures sound { (S : ScenarioData) → IsPlayable S → Leaves S self.old (held_at place) self.new }
        ensures longer { MovesLines self.old self.new }
    {
        if value_of(answer) < least {
            self.end_access(place, Some(ILLEGAL_STATE_EXCEPTION))
        } else {
            self.end_access(place, None)
        }
    }

    // Goes on after the read of an add.
    fn add(&mut self, place: Place, row: RowNo, more: i64, answer: Answer)
        requires room { 1 ≤ self.old.lines.spare }
        ensures goes { (S : ScenarioData) → Comes S self.old (added (row_access place) row more answer) self.new }
        ensures sound { (S : ScenarioData) → IsPlayable S → Leaves S self.old (held_at place) self.new }
        ensures longer { MovesLines self.old self.new }
    {
        match summed(value_of(answer), more) {
            Some(sum) => self.want_write(place, row, sum),
            None => self.end_access(place, Some(ARITHMETIC_EXCEPTION)),
        }
    }

    // Goes to the write of a row's sum.
    fn want_write(&mut self, place: Place, row: RowNo, sum: i64)
        ensures goes { (S : ScenarioData) → Comes S self.old (accesses place (AccessData.Write row sum) ThenData.Nothing) self.new }
        ensures sound { (S : ScenarioData) → Leaves S self.old (held_at place) self.new }
        ensures lines { self.new.lines ≡ self.old.lines }
    {
        self.stage = Stage::Accessing {
            place,
            access: Access::Write(row, sum),
            then: Then::Nothing,
        };
    }
}
