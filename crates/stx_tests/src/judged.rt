// Judging a scenario that is a value: the call answers something other than want of memory.
ghost use Rattle.std.specs.Prelude.{};
ghost use Rattle.stx_base.specs.Valid.{IsShaped};

use crate::scenarios::smallest;
use std::alloc::Global;
use std::test::Fail;
use stx_read::{ReadFault, judge};
use stx_scenario::Scenario;

/// Whether the scenario is accepted, and with no connection is refused for its pool.
fn is_judged(alloc: Global, mut scenario: Scenario) -> bool
    requires { IsShaped scenario }
{
    let accepted = judge(alloc, &scenario).is_ok();
    scenario.settings.pool = 0;
    accepted && is_pool_refused(&judge(alloc, &scenario))
}

fn is_pool_refused(judged: &Result<(), ReadFault>) -> bool {
    match judged {
        Err(ReadFault::OutOfRange(place)) => place.as_str() == "settings.pool",
        _ => false,
    }
}

#[test]
fn a_valid_scenario_is_accepted_and_one_without_connections_refused(
    rt: HostRuntime,
) -> Result<(), Fail> {
    let scenario = smallest(rt.alloc())?;
    assert!(rt; is_judged(rt.alloc(), scenario));
    Ok(())
}
