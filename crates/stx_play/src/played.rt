// A play under way: the pool, the store and the clients.
ghost use Rattle.std.specs.Prelude.{◌≡◌, ◌<◌, ◌↔◌, length, slice_get, map, true, false, Some, IfOk, OnOk, OnErr, IsTrue};
ghost use Rattle.std.specs.List.{list_any, range_with_len};
ghost use Rattle.std.specs.Option.{is_some, option_copied};
ghost use Rattle.stx_model.specs.Faithful.{Faithful};
ghost use Rattle.stx_model.specs.Playable.{IsPlayable};
ghost use Rattle.stx_model.specs.Played.{run_out, outcome_of};
ghost use Rattle.stx_client.specs.View.{new_client, lines_of_script};
ghost use Rattle.stx_journal.specs.Journal.{committed_in};
ghost use Rattle.stx_play.specs.Play.{unplayed, with_turn, with_turns, newly_committed, gained, is_commit, IsClientDone, AllDone};
ghost use Rattle.stx_play.specs.inner.Turning.{HasOneMore, EachEnded, HaveReadNothing};

use crate::turn::take_turn;
use std::alloc::Global;
use std::marker::Model;
use stx_base::{ClientLines, Outcome, Want};
use stx_client::{Client, Setup};
use stx_journal::Committed;
use stx_pool::PoolCore;
use stx_scenario::{List, NoMemory};
use stx_store::StoreCore;

/// A play under way, seen as the histories of its pool and its store. After want of memory it can only be dropped.
#[derive(Drop)]
pub struct Played<'a> {
    setup: &'a Setup,
    pool: PoolCore,
    store: StoreCore,
    clients: Vec<Client<'a>>,
    failed: bool,
}

impl<'a> Model for Played<'a> {
    ghost use Rattle.stx_play.specs.Play.{PlayView};
    ghost use Rattle.stx_play.specs.inner.Turning.{KeepsPlay, turns_of};

    ghost Value = { PlayView };

    ghost view = { λ p. record { scenario = p.setup.now.scenario; so_far = turns_of p.pool p.store; failed = p.failed } };

    ghost invariant = { λ p. KeepsPlay p.setup.now.scenario p.failed p.pool p.store p.clients.items };
}

impl<'a> Played<'a> {
    /// A play of a scenario, before its first turn.
    pub fn new(alloc: Global, setup: &'a Setup) -> Result<Played<'a>, NoMemory>
        requires { IsPlayable setup.now.scenario }
        ensures { IfOk result (λ play. play ≡ unplayed setup.now.scenario) }
    {
        let pool = PoolCore::new(alloc, setup.scenario.settings.pool)?;
        let store = StoreCore::new(alloc, &setup.scenario.values)?;
        let clients = clients_of(alloc, setup)?;
        Ok(Played {
            setup,
            pool,
            store,
            clients,
            failed: false,
        })
    }

    /// Whether the client with this number, from 0, has made all of its calls.
    pub fn is_done(&self, client: u32) -> bool
        requires going { self.now.failed ≡ false }
        requires client { client < length self.now.scenario.clients }
        ensures { IsTrue result ↔ IsClientDone self.now.scenario self.now.so_far client }
    {
        match self.clients[client as usize].wants() {
            Want::Done => true,
            _ => false,
        }
    }

    /// Makes one turn of a client: its next shared call, or nothing where it is done. It gives what this call committed,
    /// which is something exactly where it was a commit or an own statement that wasn't busy.
    pub fn step(&mut self, alloc: Global, client: u32) -> Result<Option<Committed>, NoMemory>
        requires going { self.old.failed ≡ false }
        requires client { client < length self.old.scenario.clients }
        ensures turn { OnOk result (self.new ≡ with_turn self.old client) }
        ensures committed { IfOk result (λ committed. committed ≡ newly_committed self.old self.new) }
        ensures told { IfOk result (λ committed. is_some committed ≡ list_any is_commit (gained self.old self.new)) }
        ensures err { OnErr result (self.new.failed ≡ true) }
    {
        if self.is_done(client) {
            return Ok(None);
        }
        let before = self.count_committed();
        self.make_call(alloc, client)?;
        match self.committed_at(alloc, before) {
            Ok(committed) => Ok(committed),
            Err(refused) => {
                self.failed = true;
                Err(refused)
            }
        }
    }

    /// Makes one turn of a client, without a copy of what it commits.
    pub(crate) fn advance(&mut self, alloc: Global, client: u32) -> Result<(), NoMemory>
        requires going { self.old.failed ≡ false }
        requires client { client < length self.old.scenario.clients }
        ensures { OnOk result (self.new ≡ with_turn self.old client) }
    {
        if self.is_done(client) {
            return Ok(());
        }
        self.make_call(alloc, client)
    }

    // How many commits there were so far.
    fn count_committed(&self) -> usize
        requires { self.now.failed ≡ false }
        ensures { result ≡ length (committed_in self.now.scenario.values self.now.so_far.store) }
    {
        self.store.committed().len()
    }

    // The commit at a place from 0, if there are so many.
    fn committed_at(&self, alloc: Global, place: usize) -> Result<Option<Committed>, NoMemory>
        requires { self.now.failed ≡ false }
        ensures { IfOk result (λ committed. committed ≡ slice_get (committed_in self.now.scenario.values self.now.so_far.store) place) }
    {
        match commit_at(self.store.committed(), place) {
            Some(committed) => Ok(Some(committed.copy(alloc)?)),
            None => Ok(None),
        }
    }

    // Makes the call that a client wants. All calls of all clients are bounded by the scenario's weight.
    fn make_call(&mut self, alloc: Global, client: u32) -> Result<(), NoMemory>
        requires going { self.old.failed ≡ false }
        requires client { client < length self.old.scenario.clients }
        requires more { ¬ (IsClientDone self.old.scenario self.old.so_far client) }
        ensures turn { OnOk result (self.new ≡ with_turn self.old client) }
        ensures one_more { OnOk result (HasOneMore self.old self.new) }
        ensures err { OnErr result (self.new.failed ≡ true) }
    {
        self.failed = true;
        take_turn(
            alloc,
            &self.setup.scenario,
            &mut self.clients[client as usize],
            client,
            &mut self.pool,
            &mut self.store,
        )?;
        self.failed = false;
        Ok(())
    }

    /// Makes turns of a client until it is done.
    pub(crate) fn run_out(&mut self, alloc: Global, client: u32) -> Result<(), NoMemory>
        requires going { self.old.failed ≡ false }
        requires client { client < length self.old.scenario.clients }
        ensures turns { OnOk result (self.new ≡ with_turns self.old (run_out self.old.scenario self.old.so_far client)) }
        ensures done { OnOk result (IsClientDone self.new.scenario self.new.so_far client) }
    {
        while !self.is_done(client) {
            self.make_call(alloc, client)?;
        }
        Ok(())
    }

    /// Whether every client has made all of its calls.
    pub fn all_done(&self) -> bool
        requires { self.now.failed ≡ false }
        ensures { IsTrue result ↔ AllDone self.now.scenario self.now.so_far }
    {
        for client in 0..self.setup.scenario.clients.len() {
            if !self.is_done(client as u32) {
                return false;
            }
        }
        true
    }

    /// The outcome of a play in which every client is done: the clients' lines and the two histories.
    pub fn finish(self, alloc: Global) -> Result<Outcome, NoMemory>
        requires going { self.failed ≡ false }
        requires done { AllDone self.scenario self.so_far }
        ensures outcome { IfOk result (λ outcome. outcome ≡ outcome_of self.entry.scenario self.entry.so_far) }
        ensures faithful { IfOk result (λ outcome. Faithful self.entry.scenario outcome) }
    {
        let lines = lines_of(alloc, self.clients)?;
        Ok(Outcome {
            lines,
            pool: self.pool.into_entries(),
            store: self.store.into_entries(),
        })
    }
}

fn commit_at(list: &[Committed], place: usize) -> Option<&Committed>
    ensures { option_copied result ≡ slice_get list.now place }
{
    list.get(place)
}

// The clients of a scenario, each at its first call.
fn clients_of<'a>(alloc: Global, setup: &'a Setup) -> Result<Vec<Client<'a>>, NoMemory>
    requires { IsPlayable setup.now.scenario }
    ensures clients { IfOk result (λ clients. clients.items ≡ map (new_client setup.now.scenario) (range_with_len 0 (length setup.now.scenario.clients))) }
    ensures read { OnOk result (HaveReadNothing setup.now.scenario (length setup.now.scenario.clients)) }
{
    let mut clients = Vec::new(alloc);
    for number in 0..setup.scenario.clients.len() {
        clients.push(Client::new(alloc, setup, number as u32)?)?;
    }
    Ok(clients)
}

// The lines of clients that are done, in their order.
fn lines_of(alloc: Global, clients: Vec<Client<'_>>) -> Result<List<ClientLines>, NoMemory>
    requires { EachEnded clients.items }
    ensures { IfOk result (λ lines. lines ≡ map lines_of_script clients.entry.items) }
{
    let mut lines = List::new(alloc);
    for client in clients {
        lines.push(client.finish())?;
    }
    Ok(lines)
}
