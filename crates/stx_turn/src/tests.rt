// Seats of several numbers that call unevenly and at once, and a call that wants memory.
ghost use Rattle.std.specs.Prelude.{◌≡◌, ◌≢◌, ℕ, ◌<◌, ◌^◌, false, [], length, IfOk, ⊤};
ghost use denote.Param.Send.{IsSync};

use super::*;
use std::alloc::Global;
use std::sync::Wait;
use std::test::Fail;
use std::thread;
use std::thread::Threads;
use stx_scenario::NoMemory;

/// The numbers of the seats that called, one for each call. A call first makes room for as many as it says.
#[derive(Drop)]
struct Tally {
    callers: Vec<u32>,
}

impl Tally {
    fn new(alloc: Global) -> Tally
        ensures { result.callers.items ≡ [] }
    {
        Tally {
            callers: Vec::new(alloc),
        }
    }
}

impl Logged for Tally {
    ghost use Rattle.std.proofs.Common.{lit<};

    type Call = usize;

    type Answer = usize;

    type Entry = u32;

    type Fixed = ();

    ghost fixed = { λ _. tt };

    ghost entries = { λ tally. tally.callers.items };

    ghost maker = { λ caller. caller };

    ghost fits = { λ _ _ _. ⊤ };

    ghost legal = { λ _ callers. length callers < 2 ^ 62 };

    ghost proper = { λ _ _ _. ⊤ };

    ghost sure = { λ _. false };

    fn apply(&mut self, alloc: Global, who: u32, room: usize) -> Result<usize, NoMemory> {
        let _ = alloc;
        let count = self.callers.len();
        if count >= u32::MAX as usize {
            return Err(NoMemory::uncountable(count, 1));
        }
        self.callers.reserve(room)?;
        self.callers.push(who)?;
        Ok(count + 1)
    }

    ghost empty_is_legal = { λ _. lit< tt };

    ghost legal_is_short = { λ _ _ few. few };
}

/// Makes so many calls.
fn call_often<R: Wait>(
    rt: &R,
    alloc: Global,
    cell: &TurnCell<Tally>,
    mut seat: Seat<Tally>,
    calls: u32,
) -> Result<Seat<Tally>, NoMemory>
    requires cell { seat.cell ≡ cell.now }
    requires not_first { seat.number ≢ 0 }
    ensures { IfOk result (λ after. (after.cell ≡ seat.cell) × (after.number ≡ seat.number)) }
{
    for _ in 0..calls {
        cell.step(rt, alloc, &mut seat, 0)?;
    }
    Ok(seat)
}

/// Two seats call at once, each in a thread of its own.
fn call_at_once<R: Threads + Wait + Sync>(
    rt: &R,
    alloc: Global,
    cell: &TurnCell<Tally>,
    one: Seat<Tally>,
    two: Seat<Tally>,
) -> Result<(Seat<Tally>, Seat<Tally>), NoMemory>
    requires cell { (one.cell ≡ cell.now) × (two.cell ≡ cell.now) }
    requires number { (one.number ≡ 2) × (two.number ≡ 3) }
    ensures one { IfOk result (λ seats. (seats.0.cell ≡ cell.now) × (seats.0.number ≡ 2)) }
    ensures two { IfOk result (λ seats. (seats.1.cell ≡ cell.now) × (seats.1.number ≡ 3)) }
{
    let (one, two) = thread::join(
        rt,
        move || -> Result<Seat<Tally>, NoMemory>
            requires { IsSync R.row × (one.cell ≡ cell.now) × (one.number ≡ 2) }
            ensures { IfOk result (λ seat. (seat.cell ≡ cell.entry.now) × (seat.number ≡ 2)) }
        { call_often(rt, alloc, cell, one, 40) },
        move || -> Result<Seat<Tally>, NoMemory>
            requires { IsSync R.row × (two.cell ≡ cell.now) × (two.number ≡ 3) }
            ensures { IfOk result (λ seat. (seat.cell ≡ cell.entry.now) × (seat.number ≡ 3)) }
        { call_often(rt, alloc, cell, two, 900) },
    );
    Ok((one?, two?))
}

/// What is left where seat 1 calls once, the seats 2 and 3 call 40 and 900 times at once, and seat 4 calls last.
fn uneven_calls<R: Threads + Wait + Sync>(rt: &R, alloc: Global) -> Result<Tally, NoMemory> {
    let (cell, mut first) = TurnCell::new(alloc, Tally::new(alloc))?;
    let one = cell.split(&mut first, 1);
    let two = cell.split(&mut first, 2);
    let three = cell.split(&mut first, 3);
    let four = cell.split(&mut first, 4);
    let one = call_often(rt, alloc, &cell, one, 1)?;
    let (two, three) = call_at_once(rt, alloc, &cell, two, three)?;
    let four = call_often(rt, alloc, &cell, four, 1)?;
    cell.join(&mut first, one);
    cell.join(&mut first, two);
    cell.join(&mut first, three);
    cell.join(&mut first, four);
    Ok(cell.close(first))
}

/// What is left of the calls of two seats, where the first one's second call wants more memory than there can be.
fn calls_with_a_refusal<R: Wait>(rt: &R, alloc: Global) -> Result<Tally, NoMemory> {
    let (cell, mut first) = TurnCell::new(alloc, Tally::new(alloc))?;
    let mut one = cell.split(&mut first, 1);
    let mut two = cell.split(&mut first, 2);
    cell.step(rt, alloc, &mut one, 0)?;
    let _ = cell.step(rt, alloc, &mut one, usize::MAX);
    cell.step(rt, alloc, &mut two, 0)?;
    cell.step(rt, alloc, &mut one, 0)?;
    cell.join(&mut first, one);
    cell.join(&mut first, two);
    Ok(cell.close(first))
}

/// How many calls a seat made.
fn calls_of(tally: &Tally, seat: u32) -> usize {
    let mut calls = 0;
    for caller in &tally.callers {
        if *caller == seat {
            calls = usize::saturating_add(calls, 1);
        }
    }
    calls
}

#[test]
fn seats_of_four_numbers_call_unevenly(rt: HostRuntime) -> Result<(), Fail> {
    let tally = uneven_calls(&rt, rt.alloc())?;
    let calls = [1, 2, 3, 4].map(|seat| calls_of(&tally, seat));
    assert_eq!(rt; calls.as_slice(), [1, 40, 900, 1].as_slice());
    Ok(())
}

#[test]
fn a_call_that_wants_memory_adds_nothing(rt: HostRuntime) -> Result<(), Fail> {
    let tally = calls_with_a_refusal(&rt, rt.alloc())?;
    assert_eq!(rt; tally.callers.as_slice(), [1, 2, 1].as_slice());
    Ok(())
}
