// The steps of one turn, on the table.
ghost use Rattle.std.specs.Prelude.{◌≡◌, ◌≢◌, ℕ, ◌+◌, ◌*◌, ◌%◌, ◌^◌, ◌<◌, ◌≤◌, List, [], ◌∷◌, ◌++◌, length, IfOk, OnErr, false};
ghost use Rattle.stx_turn.specs.Histories.{made_by};
ghost use Rattle.stx_turn.specs.inner.Steps.{IsWon, published, leaving};
ghost use Rattle.stx_turn.specs.inner.TableSeats.{IsSeatOf, IsAtRest, IsOnTurn, Follows, HasTurn, IsCalled};

use crate::logged::Logged;
use crate::rule::{InTurns, Leave, Publish, Win};
use crate::view::View;
use atomic_table as table;
use std::alloc::Global;
use std::snapshot::Snapshot;
use std::sync::Wait;
use std::thread;
use stx_scenario::NoMemory;

/// What the seats of a cell share.
pub(crate) type Shared<V> = table::Shared<
    Option<V>,
    View<<V as Logged>::Entry, <V as Logged>::Fixed>,
    Snapshot<V>,
    InTurns,
>;

/// The right to step on the table.
pub(crate) type Place<V> = table::Seat<Option<V>, View<<V as Logged>::Entry, <V as Logged>::Fixed>>;

/// The cell's only word, and its only slot.
const WORD: usize = 0;

const SLOT: usize = 0;

/// How often a thread lets others run, at most, before it tries again: the longer it waits, the longer the seat that is on its
/// turn goes on with the value in its processor's cache.
const MOST_YIELDS: u32 = 1024;

/// Tries to win the turn where the word is `word`. It gives the word that it found.
fn win<V: Logged>(shared: &Shared<V>, place: &mut Place<V>, word: u64) -> u64
    requires even { (word % 2 ≡ 0) × (word ≤ 2 ^ 63) }
    requires place { IsAtRest shared.now.table_id (V.fixed shared.now.key.value) place.old }
    ensures place { IsSeatOf place.old.table_id place.old.id place.new }
    ensures small { result < 2 ^ 63 }
    ensures won { result ≡ word → IsWon V.fixed V.entries V.maker V.legal place.old.me result place.new.me }
    ensures lost { result ≢ word → place.new.me ≡ place.old.me }
{
    shared.compare_exchange::<Win>(place, WORD, word, word + 1)
}

/// Takes the value out of the slot.
fn take_out<V: Logged>(shared: &Shared<V>, place: &mut Place<V>) -> V
    requires table { place.old.table_id ≡ shared.now.table_id }
    requires slot { (value : V) × (place.old.me.1 ≡ (0, Some value) ∷ []) }
    ensures place { IsSeatOf place.old.table_id place.old.id place.new }
    ensures value { place.old.me.1 ≡ (0, Some result) ∷ [] }
    ensures left { place.new.me ≡ (place.old.me.0, (0, None) ∷ []) }
{
    let Some(value) = shared.exchange(place, SLOT, None) else {
        unreachable!()
    };
    value
}

/// Puts the value back into the slot.
fn put_in<V: Logged>(shared: &Shared<V>, place: &mut Place<V>, value: V)
    requires table { place.old.table_id ≡ shared.now.table_id }
    requires slot { place.old.me.1 ≡ (0, None) ∷ [] }
    ensures place { IsSeatOf place.old.table_id place.old.id place.new }
    ensures left { place.new.me ≡ (place.old.me.0, (0, Some value) ∷ []) }
{
    let old = shared.exchange(place, SLOT, Some(value));
    let None = old else { unreachable!() };
}

/// Gives the value back with its new entry, which ends the turn.
fn publish<V: Logged>(shared: &Shared<V>, place: &mut Place<V>, value: V)
    requires place { IsOnTurn shared.now.table_id (V.fixed shared.now.key.value) place.old }
    requires has { V.fixed value ≡ V.fixed shared.now.key.value }
    requires entry { Follows V.entries V.maker place.old.me.0 value }
    requires legal { V.legal (V.fixed value) (V.entries value) }
    ensures place { IsSeatOf place.old.table_id place.old.id place.new }
    ensures told { place.new.me ≡ (published V.maker (V.entries value) place.old.me.0, []) }
{
    put_in(shared, place, value);
    shared.fetch_add::<Publish>(place, WORD, 1);
}

/// Gives the value back as it was, which ends the turn.
fn leave<V: Logged>(shared: &Shared<V>, place: &mut Place<V>, value: V)
    requires place { IsOnTurn shared.now.table_id (V.fixed shared.now.key.value) place.old }
    requires has { V.fixed value ≡ V.fixed shared.now.key.value }
    requires same { place.old.me.0.turn ≡ Some (V.entries value) }
    ensures place { IsSeatOf place.old.table_id place.old.id place.new }
    ensures told { place.new.me ≡ (leaving place.old.me.0, []) }
{
    put_in(shared, place, value);
    shared.fetch_sub::<Leave>(place, WORD, 1);
}

/// Lets other threads run, so many times.
fn make_way(times: u32) {
    for _ in 0..times {
        thread::yield_now();
    }
}

/// Waits for the seat's turn, and gives the word at which it came. The first guess is that the history is `length` long.
pub(crate) fn take_turn<V: Logged, R: Wait>(
    rt: &R,
    shared: &Shared<V>,
    place: &mut Place<V>,
    length: u64,
) -> u64
    requires short { length < 2 ^ 62 }
    requires place { IsAtRest shared.now.table_id (V.fixed shared.now.key.value) place.old }
    ensures place { IsSeatOf place.old.table_id place.old.id place.new }
    ensures won { IsWon V.fixed V.entries V.maker V.legal place.old.me result place.new.me }
{
    let mut word = 2 * length;
    let mut patience = 1;
    for _ in rt.forever() {
        let found = win(shared, place, word);
        if found == word {
            return found;
        }
        // Where another seat is on its turn, threads that could run go first; else only the guess was old.
        if found % 2 == 1 {
            make_way(patience);
            patience = patience.saturating_mul(2).min(MOST_YIELDS);
        }
        word = found + found % 2;
    }
    unreachable!()
}

/// Makes a call on the seat's turn, and ends the turn.
pub(crate) fn call_on_turn<V: Logged>(
    shared: &Shared<V>,
    place: &mut Place<V>,
    alloc: Global,
    who: u32,
    call: V::Call,
) -> Result<V::Answer, NoMemory>
    requires place { HasTurn V.fixed V.entries V.maker V.legal shared.now.table_id (V.fixed shared.now.key.value) place.old }
    requires who { who ≡ place.old.me.0.number }
    requires proper { V.proper who place.old.me.0.mine call }
    ensures place { IsSeatOf place.old.table_id place.old.id place.new }
    ensures ok { IfOk result (λ answer. IsCalled V.maker V.fits V.legal (V.fixed shared.now.key.value) place.old.me call answer place.new.me) }
    ensures err { OnErr result ((place.new.me ≡ (leaving place.old.me.0, [])) × (V.sure call ≡ false)) }
{
    let mut value = take_out(shared, place);
    match value.apply(alloc, who, call) {
        Ok(answer) => {
            publish(shared, place, value);
            Ok(answer)
        }
        Err(refused) => {
            leave(shared, place, value);
            Err(refused)
        }
    }
}
