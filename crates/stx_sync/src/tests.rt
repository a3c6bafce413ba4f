// The calls that take memory, with ample memory, and two registrations of one order value.
use super::*;
use std::test::Fail;
use stx_base::Label;
use stx_scenario::SyncNo;

/// A registration of the synchronisation with this number.
fn registered(number: u32, order: i32) -> Registered {
    Registered {
        label: Label::Sync(SyncNo(number)),
        order,
    }
}

#[test]
fn a_tie_stays_in_the_order_of_registering(rt: HostRuntime) -> Result<(), Fail> {
    let mut registry = Registry::new(rt.alloc());
    for r in [registered(2, 5), registered(1, 5), registered(0, -7)] {
        registry.reserve(rt.alloc()).map_err(|_| "reserve")?;
        registry.register(r);
    }
    let wanted = [registered(0, -7), registered(2, 5), registered(1, 5)];
    let snapshot = registry.snapshot(rt.alloc()).map_err(|_| "snapshot")?;
    assert_eq!(rt; snapshot.as_slice(), wanted.as_slice());
    let taken = registry.take_all(rt.alloc()).map_err(|_| "take_all")?;
    assert_eq!(rt; taken.as_slice(), wanted.as_slice());
    Ok(())
}
