// Two clients that meet in the middle of their transactions, each on a thread of its own.
ghost use Rattle.std.specs.Prelude.{};
ghost use Rattle.stx_judge.specs.Judge.{IsValid};

use std::alloc::Global;
use std::sync::Wait;
use std::test::Fail;
use std::thread::Threads;
use stx_base::{Outcome, StoreNote};
use stx_client::Setup;
use stx_report::print;
use stx_runner::{Gate, Meet, run};
use stx_scenario::{NoMemory, Scenario};
use stx_tool::{Reading, read};

/// Two clients, each with a transaction that writes two rows of its own.
const TWO_WRITERS: &str =
    "beans=[{name=\"b\"}]\nmethods=[{bean=\"b\",name=\"m\",tx={},body=[\"write a 1\",\"write c 1\"]},{bean=\"b\",name=\"n\",tx={},body=[\"write b 1\",\"write d 1\"]}]\nclients=[{calls=[\"b.m\"]},{calls=[\"b.n\"]}]\n";

/// How a report of both clients' transactions ends.
const ROWS: &[u8] = b"rows\nrow a 1\nrow b 1\nrow c 1\nrow d 1\nend\n";

/// Runs a scenario, and gives how many transactions committed, with the report's text.
fn run_at<R: Threads + Wait + Sync, G: Gate>(
    rt: &R,
    alloc: Global,
    scenario: Scenario,
    gate: &G,
) -> Result<(usize, Vec<u8>), NoMemory>
    requires { IsValid scenario }
{
    let setup = Setup::new(alloc, scenario)?;
    let outcome = run(rt, alloc, &setup, gate)?;
    let text = print(alloc, &setup.scenario, &outcome)?;
    Ok((commits(&outcome), text))
}

fn commits(outcome: &Outcome) -> usize {
    let entries = outcome.store.as_slice();
    entries
        .iter()
        .filter(|entry| matches!(entry.note, StoreNote::Commit { .. }))
        .count()
}

/// Whether the two clients met before their fourth calls, both committed, and all four rows are there.
fn have_met<R: Threads + Wait + Sync>(rt: &R, alloc: Global) -> Result<bool, NoMemory> {
    let gate = Meet::new(0, 1, 4, 10_000_000);
    match read(alloc, TWO_WRITERS.as_bytes())? {
        Reading::Accepted(scenario) => {
            let (commits, text) = run_at(rt, alloc, scenario, &gate)?;
            Ok(gate.met() && commits == 2 && text.ends_with(ROWS))
        }
        Reading::Refused(_) => Ok(false),
    }
}

#[test]
fn two_clients_meet_before_their_fourth_calls(rt: HostRuntime) -> Result<(), Fail> {
    let met = have_met(&rt, rt.alloc())?;
    assert!(rt; met);
    Ok(())
}

#[test]
fn one_thread_does_not_meet_itself(rt: HostRuntime) {
    let gate = Meet::new(0, 1, 4, 1000);
    gate.before(0, 4);
    gate.before(1, 4);
    assert!(rt; !gate.met());
}
