// The cell and its seats, as callers have them.
ghost use Rattle.std.specs.Prelude.{◌≡◌, ◌≢◌, ℕ, ◌+◌, [], IfOk, OnErr, Some};
ghost use Rattle.stx_turn.specs.Seats.{first_seat, new_seat, after_split, after_join, IsSameSeat, Added, NotMade, AllJoined, IsWhole};

use crate::logged::Logged;
use crate::rule::{InTurns, JoinIn, SplitOff};
use crate::turns::{Place, call_on_turn, take_turn};
use crate::view::View;
use atomic_table::{Refused, Table};
use std::alloc::{AllocError, Global};
use std::marker::Model;
use std::snapshot::Snapshot;
use std::sync::Wait;
use stx_scenario::NoMemory;

/// The table of one word and one slot.
type Turns<V> = Table<
    Option<V>,
    View<<V as Logged>::Entry, <V as Logged>::Fixed>,
    Snapshot<V>,
    InTurns,
    Global,
>;

/// A value that threads call in turns. Contracts see which cell it is, and the value's fixed data.
#[derive(Drop)]
pub struct TurnCell<V: Logged> {
    table: Turns<V>,
}

impl<V: Logged> Model for TurnCell<V> {
    ghost use Rattle.std.specs.Prelude.{◌≡◌, Some};
    ghost use Rattle.stx_turn.specs.Seats.{CellView};

    ghost Value = { CellView V.Fixed };

    ghost view = { λ c. record { id = c.table.shared.table_id; facts = Some (V.fixed c.table.shared.key.value) } };

    ghost invariant = { λ c. (c.table.shared.table_id.words ≡ 1) × (c.table.shared.table_id.slots ≡ 1) };
}

/// The right to call a cell's value, under one number. Contracts see what it knows of the cell.
#[derive(Drop)]
pub struct Seat<V: Logged> {
    place: Place<V>,
    number: u32,
    /// How much of the history it has seen.
    count: u64,
}

impl<V: Logged> Model for Seat<V> {
    ghost use Rattle.stx_turn.specs.Seats.{SeatView, seat_view};
    ghost use Rattle.stx_turn.specs.inner.TableSeats.{IsIdle};

    ghost Value = { SeatView V.Entry V.Fixed };

    ghost view = { λ s. seat_view s.place.table_id s.place.me.0 };

    ghost invariant = { λ s. IsIdle s.number s.count s.place.me };
}

impl<V: Logged> TurnCell<V> {
    /// A cell of this value, and its first seat, which makes no calls and splits off the seats that do.
    pub fn new(alloc: Global, value: V) -> Result<(TurnCell<V>, Seat<V>), NoMemory>
    where
        V: Drop,
        requires { V.entries value ≡ [] }
        ensures cell { IfOk result (λ made. made.0.facts ≡ Some (V.fixed value)) }
        ensures seat { IfOk result (λ made. made.1 ≡ first_seat made.0) }
    {
        let about = Snapshot::of(&value);
        let mut slots = Vec::new(alloc);
        slots.push(Some(value))?;
        let made: Result<(Turns<V>, Place<V>), _> = Table::new(alloc, &[0], slots, &about);
        let (table, place) = match made {
            Ok(made) => made,
            Err(refused) => return Err(without_table(refused)),
        };
        let seat = Seat {
            place,
            number: 0,
            count: 0,
        };
        Ok((TurnCell { table }, seat))
    }

    /// A new seat with the next number. It takes no memory.
    pub fn split(&self, from: &mut Seat<V>, number: u32) -> Seat<V>
        requires cell { from.old.cell ≡ self.now }
        requires first { from.old.number ≡ 0 }
        requires next { number ≡ from.old.made + 1 }
        ensures from { from.new ≡ after_split from.old number }
        ensures seat { result ≡ new_seat from.old number }
    {
        let place = self.table.shared.split_seat::<SplitOff>(&mut from.place);
        Seat {
            place,
            number,
            count: from.count,
        }
    }

    /// Makes a call once it is the seat's turn.
    pub fn step<R: Wait>(
        &self,
        rt: &R,
        alloc: Global,
        seat: &mut Seat<V>,
        call: V::Call,
    ) -> Result<V::Answer, NoMemory>
        requires cell { seat.old.cell ≡ self.now }
        requires not_first { seat.old.number ≢ 0 }
        requires proper { V.proper seat.old.number seat.old.mine call }
        ensures same { IsSameSeat seat.old seat.new }
        ensures added { IfOk result (λ answer. Added V.maker V.fits V.legal seat.old call answer seat.new) }
        ensures none { OnErr result (NotMade V.sure seat.old call seat.new) }
    {
        let shared = &self.table.shared;
        let word = take_turn(rt, shared, &mut seat.place, seat.count);
        match call_on_turn(shared, &mut seat.place, alloc, seat.number, call) {
            Ok(answer) => {
                seat.count = word / 2 + 1;
                Ok(answer)
            }
            Err(refused) => {
                seat.count = word / 2;
                Err(refused)
            }
        }
    }

    /// Takes in a seat that makes no more calls.
    pub fn join(&self, into: &mut Seat<V>, seat: Seat<V>)
        requires into { into.old.cell ≡ self.now }
        requires first { into.old.number ≡ 0 }
        requires seat { seat.cell ≡ self.now }
        requires not_first { seat.number ≢ 0 }
        ensures { into.new ≡ after_join into.old seat }
    {
        let Seat {
            place,
            number: _,
            count,
        } = seat;
        self.table
            .shared
            .join_seat::<JoinIn>(&mut into.place, place);
        if into.count < count {
            into.count = count;
        }
    }

    /// The value, once all seats are joined in.
    pub fn close(self, seat: Seat<V>) -> V
        requires cell { seat.cell ≡ self }
        requires first { seat.number ≡ 0 }
        requires all { AllJoined seat }
        ensures { IsWhole V.fixed V.entries V.maker V.legal seat result }
    {
        let TurnCell { table } = self;
        let Seat {
            place,
            number: _,
            count: _,
        } = seat;
        let mut closed = table.close_with(place);
        let value = closed.take(0);
        closed.free();
        let Some(value) = value else { unreachable!() };
        value
    }
}

// The library hands back what it found no memory for.
fn without_table<V: Drop>(_: Refused<Option<V>, Global>) -> NoMemory {
    NoMemory::from(AllocError)
}
