// A client with its seats, as one element of a list that threads share out.
ghost use Rattle.std.specs.Prelude.{◌≡◌, ◌<◌, false, IsTrue, IfOk};
ghost use Rattle.stx_shared.specs.Asking.{IsAt};
ghost use Rattle.stx_runner.specs.Driving.{IsPlayed};
ghost use Rattle.stx_runner.specs.inner.Slots.{IsNewSlot, IsSlot, Keeps, IsOver, IsUnderWay, calls_left};

use crate::calling::call_and_hear;
use crate::gate::Gate;
use std::alloc::Global;
use std::marker::Model;
use std::sync::Wait;
use stx_base::{ClientLines, Want};
use stx_client::{Client, Setup};
use stx_scenario::NoMemory;
use stx_shared::{Cells, SharedBackend};

/// A client and what it calls through. Unless memory ran out, the notes that the client has taken in are those of its
/// seats' own calls.
#[derive(Drop)]
pub(crate) struct Slot<'a> {
    client: Client<'a>,
    backend: SharedBackend,
    /// How many shared calls the client has made.
    calls: u64,
    /// Where memory ran out. Then the client makes no more calls.
    refused: Option<NoMemory>,
}

impl<'a> Model for Slot<'a> {
    ghost use Rattle.stx_runner.specs.inner.Slots.{SlotView, IsTied};

    ghost Value = { SlotView };

    ghost view = { λ s. record { client = s.client; backend = s.backend; calls = s.calls; refused = s.refused } };

    ghost invariant = { λ s. IsTied s.client s.backend s.calls s.refused };
}

impl<'a> Slot<'a> {
    /// A client that has made no call yet, with the seats that it is to use.
    pub(crate) fn new(
        alloc: Global,
        setup: &'a Setup,
        backend: SharedBackend,
    ) -> Result<Slot<'a>, NoMemory>
        requires { IsNewSlot setup.now.scenario backend }
        ensures { IfOk result (λ slot. IsSlot setup.now.scenario backend.number slot × (slot.backend ≡ backend)) }
    {
        let client = Client::new(alloc, setup, backend.number)?;
        Ok(Slot {
            client,
            backend,
            calls: 0,
            refused: None,
        })
    }

    /// Whether the client has made all of its calls, or has failed.
    pub(crate) fn is_over(&self) -> bool
        ensures over { IsTrue result → IsOver self.now }
        ensures more { result ≡ false → IsUnderWay self.now }
    {
        match self.refused {
            Some(_) => true,
            None => matches!(self.client.wants(), Want::Done),
        }
    }

    /// Makes the client's next shared call.
    fn step<R: Wait, G: Gate>(&mut self, rt: &R, alloc: Global, cells: &Cells, gate: &G)
        requires at { IsAt self.old.backend cells.now }
        requires more { IsUnderWay self.old }
        ensures keeps { Keeps self.old self.new }
        ensures left { calls_left self.new < calls_left self.old }
    {
        let nth = self.calls + 1;
        let heard = call_and_hear(
            rt,
            alloc,
            cells,
            gate,
            &mut self.client,
            &mut self.backend,
            nth,
        );
        match heard {
            Ok(()) => self.calls = nth,
            Err(refused) => self.refused = Some(refused),
        }
    }

    /// Makes all calls that the client has left.
    pub(crate) fn finish<R: Wait, G: Gate>(
        &mut self,
        rt: &R,
        alloc: Global,
        cells: &Cells,
        gate: &G,
    )
        requires { IsAt self.old.backend cells.now }
        ensures keeps { Keeps self.old self.new }
        ensures over { IsOver self.new }
    {
        while !self.is_over() {
            self.step(rt, alloc, cells, gate);
        }
    }

    /// The lines of the client and its seats, once it is over. A client that has failed is given up.
    pub(crate) fn end(self) -> Result<(ClientLines, SharedBackend), NoMemory>
        requires { IsOver self }
        ensures { IfOk result (λ ended. IsPlayed self.entry.client.scenario self.entry.client.number ended.0 ended.1 × (ended.1 ≡ self.entry.backend)) }
    {
        let Slot {
            client,
            backend,
            calls: _,
            refused,
        } = self;
        if let Some(refused) = refused {
            client.abandon();
            return Err(refused);
        }
        Ok((client.finish(), backend))
    }
}
