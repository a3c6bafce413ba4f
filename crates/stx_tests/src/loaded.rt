// The summary of a load: with memory enough there is one, and its sum is exact past 64 bits.
use std::alloc::Global;
use std::test::Fail;
use stx_base::Outcome;
use stx_load::generated;
use stx_report::summary;
use stx_scenario::{List, NoMemory};

/// The summary of a load that has done nothing yet, in which each row has this value at first.
fn summary_of_all(alloc: Global, value: i64) -> Result<Vec<u8>, NoMemory> {
    let mut scenario = generated(alloc, 7, 4)?;
    scenario.values = List::from_vec(vec![in alloc; value; 19]?);
    let outcome = Outcome {
        lines: List::new(alloc),
        pool: List::new(alloc),
        store: List::new(alloc),
    };
    summary(alloc, 7, &scenario, &outcome)
}

#[test]
fn a_summary_has_the_exact_sum_of_the_accounts(rt: HostRuntime) -> Result<(), Fail> {
    let plain = summary_of_all(rt.alloc(), 1_000)?;
    assert!(rt;
        plain.as_slice()
            == "load seed 7 clients 4\ntop_calls 32\naccounts 16 sum 16000\nend\n".as_bytes()
    );
    let greatest = summary_of_all(rt.alloc(), i64::MAX)?;
    assert!(rt;
        greatest.as_slice()
            == "load seed 7 clients 4\ntop_calls 32\naccounts 16 sum 147573952589676412912\nend\n".as_bytes()
    );
    Ok(())
}
