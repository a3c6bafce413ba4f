// The scenario that a seed gives: with memory enough there is one.
use crate::generated;
use std::alloc::Global;
use std::test::Fail;
use stx_scenario::{NoMemory, RowNo, Scenario, Stmt};

/// Whether a payment moves so much from one account to another.
fn pays(scenario: &Scenario, payment: usize, from: u32, to: u32, amount: i64) -> bool {
    let Some(method) = scenario.methods.get(payment) else {
        return false;
    };
    let body = method.body.as_slice();
    body.get(0) == Some(&Stmt::Need(RowNo(from), amount))
        && body.get(2) == Some(&Stmt::Add(RowNo(to), amount))
}

fn is_row(scenario: &Scenario, row: usize, name: &str, value: i64) -> bool {
    scenario
        .row_names
        .get(row)
        .is_some_and(|found| found.as_str() == name)
        && scenario.values.get(row) == Some(&value)
}

fn is_seventh(alloc: Global) -> Result<bool, NoMemory> {
    let scenario = generated(alloc, 7, 4)?;
    let are_rows = is_row(&scenario, 0, "acct00", 1_000)
        && is_row(&scenario, 15, "acct15", 1_000)
        && is_row(&scenario, 16, "stock", 100_000);
    let are_payments = pays(&scenario, 0, 14, 10, 4)
        && pays(&scenario, 1, 1, 12, 20)
        && pays(&scenario, 63, 8, 11, 19);
    let turns = scenario.schedule.as_slice();
    let are_turns = turns.len() == 800 && turns.starts_with(&[0, 1, 2, 0, 2, 1, 1, 0]);
    Ok(are_rows && are_payments && are_turns && scenario.settings.pool == 5)
}

#[test]
fn seed_seven_gives_its_payments_and_turns(rt: HostRuntime) -> Result<(), Fail> {
    assert!(rt; is_seventh(rt.alloc())?);
    Ok(())
}

#[test]
fn most_clients_have_a_scenario(rt: HostRuntime) -> Result<(), Fail> {
    let scenario = generated(rt.alloc(), u64::MAX, 64)?;
    assert!(rt; scenario.clients.len() == 64);
    assert!(rt; scenario.schedule.len() == 12_800);
    assert!(rt; scenario.settings.pool == 64);
    Ok(())
}
