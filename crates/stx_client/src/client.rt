// A client: what it wants of the pool and the store, and the lines that it has said.
ghost use Rattle.std.specs.Prelude.{◌≡◌, ◌≢◌, ◌<◌, ◌↔◌, length, false, [], Some, None, IfOk, OnOk, OnErr, IsTrue};
ghost use Rattle.stx_base.specs.declared.call.Want.{Want as WantData};
ghost use Rattle.stx_base.specs.Notes.{call_want, is_answer, is_reply};
ghost use Rattle.stx_model.specs.Meanings.{state_of, stop_of};
ghost use Rattle.stx_model.specs.Reads.{StartsWith};
ghost use Rattle.stx_machine.specs.Machine.{want_of};
ghost use Rattle.stx_model.specs.Playable.{IsPlayable};
ghost use Rattle.stx_machine.specs.Sound.{IsSound, brought, held, held_out};
ghost use Rattle.stx_client.specs.View.{new_client, script_of, lines_of_script, calling, fed, failed_at, HasReadAll, IsScript};
ghost use Rattle.stx_client.specs.inner.Keeps.{GoesOn, IsWaiting, run_with};

use crate::notes::{Notes, note_of};
use std::alloc::Global;
use std::marker::Model;
use stx_base::{Call, ClientLines, Line, Note, PoolCall, Reply, StoreCall, Want};
use stx_machine::{Machine, Setup, Stage};
use stx_scenario::NoMemory;
use stx_steps::fall;

/// A client of a scenario, seen as the notes that it has taken in, the call that is out, whether it has failed, and the
/// lines that it has said.
///
/// It makes its top-level calls one after the other. `wants` names the next shared call, `next` makes it, and `feed`
/// takes in the reply and goes on. Dropping it retires the connection and the session that it holds.
#[derive(Drop)]
pub struct Client<'a> {
    setup: &'a Setup,
    number: u32,
    machine: Machine,
    is_out: bool,
    notes: Notes,
}

impl<'a> Model for Client<'a> {
    ghost use Rattle.std.specs.Prelude.{Some, None, if◌then◌else◌};
    ghost use Rattle.stx_machine.specs.Machine.{has_failed, want_of};
    ghost use Rattle.stx_client.specs.View.{ClientView};
    ghost use Rattle.stx_client.specs.inner.Keeps.{Keeps, HasRoom};

    ghost Value = { ClientView };

    ghost view = { λ c. record { scenario = c.setup.now.scenario; number = c.number; pool = c.notes.pool.items; store = c.notes.store.items; out = if c.is_out then Some (want_of c.machine.stage) else None; failed = has_failed c.machine.stage; said = c.machine.lines.items } };

    ghost invariant = { λ c. Keeps c.setup.now.scenario c.number c.machine c.is_out c.notes.pool.items c.notes.store.items × HasRoom c.machine c.notes.pool.spare c.notes.store.spare };
}

impl<'a> Client<'a> {
    /// A client of this number, from 0, at its first call.
    pub fn new(alloc: Global, setup: &'a Setup, number: u32) -> Result<Client<'a>, NoMemory>
        requires playable { IsPlayable setup.now.scenario }
        requires client { number < length setup.now.scenario.clients }
        ensures client { IfOk result (λ client. client ≡ new_client setup.now.scenario number) }
        ensures read { IfOk result (λ client. HasReadAll client) }
    {
        let notes = Notes::new(alloc)?;
        let mut machine = Machine::new(alloc);
        machine.reserve(alloc)?;
        machine.call_at(setup, number, 0);
        fall(&mut machine, alloc, setup, number)?;
        Ok(Client {
            setup,
            number,
            machine,
            is_out: false,
            notes,
        })
    }

    /// The lines so far: exactly those of the client's script over its notes, and after want of memory a first part of
    /// them.
    pub fn lines(&self) -> &[Line]
        ensures said { result.now ≡ self.now.said }
        ensures exact { self.now.failed ≡ false → IsScript self.now result.now }
        ensures start { StartsWith (state_of (script_of self.now)).lines result.now }
    {
        self.machine.lines.as_slice()
    }

    /// The next shared call: where the script over the notes so far stops.
    pub fn wants(&self) -> Want
        ensures want { self.now.failed ≡ false → stop_of (script_of self.now) ≡ Some result }
        ensures failed { IsTrue self.now.failed ↔ (result ≡ WantData.Failed) }
    {
        self.machine.stage.want()
    }

    /// Makes the call that is wanted; the connection or the session that it spends goes with it.
    pub fn next(&mut self) -> Call
        requires out { self.old.out ≡ None }
        requires failed { self.old.failed ≡ false }
        requires more { stop_of (script_of self.old) ≢ Some WantData.Done }
        ensures want { stop_of (script_of self.old) ≡ Some (call_want result) }
        ensures out { self.new ≡ calling self.old (call_want result) }
    {
        self.is_out = true;
        match self.machine.stage.want() {
            Want::Take => Call::Pool(PoolCall::Take),
            Want::Give(number) => Call::Pool(PoolCall::Give(
                self.machine.tokens.spend_connection(number),
            )),
            Want::Begin => Call::Store(StoreCall::Begin),
            Want::Access(tx, access) => Call::Store(StoreCall::Access(tx, access)),
            Want::Auto(access) => Call::Store(StoreCall::Auto(access)),
            Want::Point(tx) => Call::Store(StoreCall::Point(tx)),
            Want::BackTo(tx) => Call::Store(StoreCall::BackTo(tx)),
            Want::Release(tx) => Call::Store(StoreCall::Release(tx)),
            Want::Commit(tx) => Call::Store(StoreCall::Commit(
                self.machine.tokens.spend_session(tx),
            )),
            Want::Rollback(tx) => Call::Store(StoreCall::Rollback(
                self.machine.tokens.spend_session(tx),
            )),
            _ => unreachable!(),
        }
    }

    /// Takes in the reply to the call that is out, and goes on to the next shared call or to the end. For want of
    /// memory the client fails, and the reply is taken in all the same. What it had said stays said in either case.
    pub fn feed(&mut self, alloc: Global, reply: Reply) -> Result<(), NoMemory>
        requires failed { self.old.failed ≡ false }
        requires reply { IsTrue (is_reply self.old.out reply) }
        ensures ok { OnOk result (self.new ≡ fed self.old reply) }
        ensures read { OnOk result (HasReadAll self.new) }
        ensures err { OnErr result (self.new ≡ failed_at self.old reply self.new.said) }
        ensures longer { StartsWith self.new.said self.old.said }
        ensures script { StartsWith (lines_of_script self.new) self.new.said }
    {
        let want = self.machine.stage.want();
        let note = note_of(want, reply, &mut self.machine.tokens);
        self.notes.push(note);
        self.is_out = false;
        let heard = hear(
            alloc,
            self.setup,
            self.number,
            &mut self.machine,
            &mut self.notes,
            note,
        );
        if let Err(fault) = heard {
            self.machine.stage = Stage::Failed;
            return Err(fault);
        }
        Ok(())
    }

    /// The client's lines, once all of its calls are made.
    pub fn finish(self) -> ClientLines
        requires failed { self.failed ≡ false }
        requires done { stop_of (script_of self) ≡ Some WantData.Done }
        ensures { result ≡ (state_of (script_of self.entry)).lines }
    {
        let Client {
            setup: _,
            number: _,
            machine,
            is_out: _,
            notes: _,
        } = self;
        machine.into_lines()
    }

    /// Gives the client up, and retires what it holds.
    pub fn abandon(self) {
        drop(self);
    }
}

// Takes in a note that answers what is wanted, and goes on to the next shared call or to the end. For want of memory it
// stops before that, or before the note.
fn hear(
    alloc: Global,
    setup: &Setup,
    number: u32,
    machine: &mut Machine,
    notes: &mut Notes,
    note: Note,
) -> Result<(), NoMemory>
    requires playable { IsPlayable setup.now.scenario }
    requires client { number < length setup.now.scenario.clients }
    requires sound { IsSound setup.now.scenario machine.old (brought note (held_out machine.old.stage)) }
    requires answers { IsTrue (is_answer (want_of machine.old.stage) note) }
    ensures pool { notes.new.pool.items ≡ notes.old.pool.items }
    ensures store { notes.new.store.items ≡ notes.old.store.items }
    ensures room { OnOk result ((0 < notes.new.pool.spare) × (0 < notes.new.store.spare)) }
    ensures goes { OnOk result (GoesOn setup.now.scenario number note machine.old machine.new) }
    ensures waiting { OnOk result (IsWaiting setup.now.scenario machine.new (held machine.new.stage)) }
    ensures starts { StartsWith (state_of (run_with setup.now.scenario number machine.old note [] [])).lines machine.new.lines.items }
    ensures longer { StartsWith machine.new.lines.items machine.old.lines.items }
{
    notes.reserve()?;
    machine.reserve(alloc)?;
    stx_steps::hear(machine, alloc, setup, note);
    fall(machine, alloc, setup, number)
}
